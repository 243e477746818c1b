//! This crate takes numbers apart as texts spell them: a decimal with an exponent, for example `0.25` or `1e-05`, or a
//! quotient, for example `1/3`.
//!
//! `read_spelling` gives the parts of the number that a text spells, if it spells one, and `digits_onto` the number
//! that digits spell. Which numbers are refused is for the callers to say. No call takes memory.
#![tactic(auto)]

mod digits;
pub mod laws;
mod limits;
mod spelling;

pub use digits::digits_onto;
pub use limits::{MOST_DIGITS, MOST_EXPONENT, MOST_EXPONENT_DIGITS};
pub use spelling::{Power, Written, read_spelling};
