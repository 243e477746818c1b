//! This crate makes the distribution of a choice from its parts, whose shares are exact fractions.
//!
//! `make_choice` adds up the parts of a choice over the least common multiple of their denominators. The decimals of a
//! file may be rounded, so a sum that misses 1 by at most one part in 100,000 is accepted. The weights are then divided
//! by their sum: an edge has its weight over the total as its probability.
//!
//! ```text
//! let share = read_number(b"0.33333333333333331")?;
//! let choice = make_choice(alloc, &[Part { to: 1, share }, Part { to: 2, share }, Part { to: 3, share }])?;
//! ```
//!
//! Each call is exact: its answer is what the definitions say. Only `make_choice` and `fill_choice` take memory.
#![tactic(auto)]

mod choice;
mod gather;
pub mod laws;
mod limits;

pub use choice::{ChoiceFault, Part, fill_choice, make_choice, shares_are_fractions};
pub use fractions::{Frac, NumberFault, compare, read_number};
pub use limits::{MOST_PARTS, TOLERANCE};
