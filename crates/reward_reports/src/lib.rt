//! This crate reports on a certificate of expected rewards.
//!
//! [`report_rewards`] makes the text and the status of some states from the tables of a certificate: a line for each
//! state, with its values and what they say of a bound. [`reward_report_of`] makes the same of a certificate that
//! was accepted, and promises that what it says is right of the exact rewards: `specs/Reports.antt` says how. No call
//! checks a certificate: `reward_check` does. [`laws`] has what the promise rests on.
#![tactic(auto)]

pub mod laws;
mod lines;
mod report;

pub use report::{report_rewards, reward_report_of};
