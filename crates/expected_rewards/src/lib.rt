//! This crate has expected rewards: what two strategies with memory and dice are expected to collect before a goal, and
//! what tables of rewards promise.
//!
//! No function here does anything: a call tells a proof what its contract says.
#![tactic(auto)]

pub mod laws;
pub mod worked_games;
