//! The bounds of an expected reward give a verdict on a threshold, and a report tells it.
//!
//! A bound is a count of units of 10^-places of reward, of at most 10^15 of them. A lower bound may be infinite: then
//! it is proved that the value is. An upper bound may be missing: then it settles nothing. [`settle_reward`] compares
//! both with the threshold, exactly, and [`reward_report_text`] writes the lines of a report. [`laws`] says that
//! verdicts are right, and that a report has one reading.
#![tactic(auto)]

pub mod laws;
mod report;
mod verdict;

pub use report::{RewardLine, reward_report_text};
pub use verdict::settle_reward;
