//! The values of expected rewards are written as text.
//!
//! A value is a count of units, of at most 10^15 of them, or infinite. A unit of so many places is 10^-places of
//! reward. [`append_reward_value`] writes digits without leading zeros and, with places above 0, a point and as many
//! digits as there are places; an infinite value is the word `infinite`. A text of so many places has one reading
//! ([`laws`]).
#![tactic(auto)]

pub mod laws;
mod value;

pub use value::{append_reward_value, units_of_one};
