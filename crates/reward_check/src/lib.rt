//! A certificate of expected rewards is an upper table with replies and ranks, and a lower table with choices and
//! ranks. The check says whether they are what the laws of `expected_rewards` ask for.
//!
//! [`check_rewards`] tests a certificate part by part, and names the first fault if there is one. What is accepted
//! bounds what the game is worth to strategies with memory and dice ([`laws::accepted_rewards_are_sound`]; as
//! certificates of expected rewards: Chatterjee, Quatmann, Schaeffeler, Weininger, Winkler and Zilken, Fixed point
//! certificates for reachability and expected rewards in MDPs, TACAS 2025). The check takes no memory. [`turn`] gives
//! the question with exchanged sides, in which the minimiser wants to reach a goal.
#![tactic(auto)]

mod away;
mod check;
mod choice;
pub mod laws;
mod parts;
mod range;
mod reward;
mod successors;
mod tables;
mod taken;
mod turned;

pub use check::{RewardCause, RewardFault, check_rewards};
pub use tables::RewardTables;
pub use turned::turn;
