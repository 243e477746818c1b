//! This crate has fractions in lowest terms, and the numbers that texts spell.
//!
//! `read_number` gives the fraction that a text spells, for example `0.25`, `1e-05` or `1/3`, or the first reason why
//! it spells none. `compare` orders two fractions. Contracts see a `Frac` as a numerator over a denominator. Each call
//! is exact: its answer is what the definitions say. No call takes memory.
#![tactic(auto)]

mod divisors;
mod fraction;
pub mod laws;
mod limits;
mod lowest;
mod number;
mod short;
mod tens;

pub use divisors::{MOST_NARROW, greatest_common_divisor, least_common_multiple};
pub use fraction::{Frac, compare};
pub use limits::{FINEST, FINEST_PLACES, MOST_VALUE};
pub use number::{NumberFault, read_number};
