//! This crate makes the rounds of one race over the states that may rise.
//!
//! A [`Runner`] has the shared words of a question and a [`DirtySet`]: the values that were read last, and marks on the
//! states to update. [`open`] marks all of them, [`one_round`] lets the workers of a round update the marked ones,
//! reads these again, and marks the predecessors of those whose values changed (a sweep that passes over states that
//! can't rise: Moore and Atkeson, Prioritized sweeping, 1993), and [`close`] gives the words. After r rounds what was
//! read is nowhere below r down steps, for every schedule and number of workers (`specs/Rounds.antt`). No contract says
//! how many workers a round has, or which states are marked beyond those that may rise.
#![tactic(auto)]

mod dirty;
mod runner;

pub use dirty::DirtySet;
pub use runner::{Runner, busy_workers, close, one_round, open};
