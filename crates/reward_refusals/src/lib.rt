//! This crate has the refusals of a question of expected rewards, and what a run prints for each.
//!
//! A [`RewardRefusal`] is the first fault of what such a run was given. Most are those of a question of probabilities
//! too. The others are the faults of the file of rewards, and those of a certificate of rewards: of its text, with the
//! line, or of what it says, with the state and the choice. [`reward_refusal_line`] is the line of a refusal, and
//! [`RewardRefusal::status`] says how the run ends. `specs/Caused.antt` says which refusals loading hands out.
//!
//! [`laws`] says that no two of these have one line: [`RewardRefusal::invariant`] says that the numbers of a refusal
//! are written in full.
#![tactic(auto)]

mod causes;
pub mod laws;
mod line;
mod printable;
mod refusal;

pub use line::reward_refusal_line;
pub use refusal::RewardRefusal;
