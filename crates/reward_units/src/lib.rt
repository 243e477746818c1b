//! This crate gives exact rewards in whole units, rounded down for a lower table and rounded up for an upper one.
//!
//! A unit of so many places is 10^-places of reward. [`units_below`] and [`units_above`] round one reward: that of a
//! state, or that of a choice. A turn is paid the sum of both. A reward of more than 10^15 units becomes
//! [`MOST_UNITS`], which pays every lower value, and which no upper value covers. If a certificate is accepted over
//! such sums, its values bound what the exact rewards are worth ([`laws::accepted_bounds_are_exact`]).
//! [`rewards_in_units`] lists these sums for the rewards of a file. It is the only call that takes memory.
#![tactic(auto)]

mod division;
pub mod laws;
mod limits;
mod rounded;
mod units;

pub use limits::{MOST_PLACES, MOST_UNITS};
pub use rounded::{Rounding, rewards_in_units};
pub use units::{units_above, units_below};
