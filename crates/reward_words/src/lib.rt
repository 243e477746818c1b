//! This crate reads the words of the two commands on expected rewards: what `audit` and `solve` take with `--rewards`.
//!
//! [`read_reward_words`] gives the command that the words denote. The first word names it, and the words after it are
//! as `clap` reads them, by the definitions of `specs/Grammar.antt`; the file of rewards must be named.
//! [`refused_reward_words`] says what is wrong with words that denote none.
#![tactic(auto)]

mod grammar;
pub mod laws;
mod refused;
mod said;
mod words;

pub use refused::refused_reward_words;
pub use words::{AuditRewardWords, RewardWords, SolveRewardWords, read_reward_words};
