//! This crate takes rounded Bellman steps over tables of units. They are the operator of value iteration, rounded down
//! for lower bounds and up for upper bounds (Baier and Katoen 2008, chapter 10).
//!
//! [`down_state`] and [`up_state`] give a step at one state, [`down_choice`] and [`up_choice`] the value of one choice.
//! Iteration needs less: [`raised_state`] gives the down step only if it is above the entry of its table. It compares
//! before it divides, so a state that does not rise costs a sum and a comparison for each choice, and no division.
//! [`settled`] says that no state rises, and [`is_given`] that a state does not fall. [`gives`] says that a choice
//! gives at least a value, and [`holds`] that it gives at most a value. None of these four divides. [`step_above`] is
//! the kernel of down steps, over values that may rise while they are read ([`Values`]): a table, or words that are
//! shared. [`step_bounds`] is the step of lower and upper bounds that lie side by side ([`Bounds`]). No call takes
//! memory.
#![tactic(auto)]

mod above;
mod bound_sums;
mod bounds;
mod choice;
mod down;
mod given;
mod quotient;
mod settling;
mod sum;
mod up;
mod values;

pub use above::step_above;
pub use bounds::{Bounds, step_bounds};
pub use choice::{better, down_choice, up_choice};
pub use down::{down_state, raised_state};
pub use given::{gives, holds, is_given};
pub use quotient::Quotient;
pub use settling::settled;
pub use up::up_state;
pub use values::{Entries, Values};
