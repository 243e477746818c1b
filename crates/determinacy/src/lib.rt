//! This crate has the exact values of a question.
#![tactic(auto)]

pub mod laws;
pub mod worked_games;
