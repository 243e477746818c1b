//! The lower guess raises a lower table by a few units, if some choices and ranks prove the raised table.
//!
//! So it finds a value that rounded steps come near to and never reach. This is guess and verify, as optimistic value
//! iteration does it for upper tables (Hartmanns and Kaminski, Optimistic value iteration, CAV 2020). `lower_guess`
//! gives the first raised table for which `rank_table` finds choices and ranks. If there is none, it gives the table
//! and choices that it was given, with their ranks. `lower_guess_over` does so over lists of predecessors that the
//! caller has.
#![tactic(auto)]

mod guess;
mod guesses;
pub mod laws;
mod lesser;
mod local;

pub use guess::{LowerGuess, lower_guess, lower_guess_over};
