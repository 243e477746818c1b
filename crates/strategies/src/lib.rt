//! This crate has strategies with memory and dice. The values of a question are the probabilities of the best of them.
//!
//! No function here does anything: a call tells a proof what its contract says.
#![tactic(auto)]

pub mod laws;
pub mod worked_games;
