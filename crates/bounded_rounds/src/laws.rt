//! This module has the laws of sweeps. Each function does nothing: its contract is the law.

ghost use Rattle.std.specs.Prelude.{◌≡◌};
ghost use Rattle.bounded_rounds.specs.Limits.{most_steps, most_workers};

mod brackets;
mod opening;
mod sweeps;

use crate::limits::{MOST_STEPS, MOST_WORKERS};
pub use brackets::{
    bounded_values_are_bracketed, next_values_are_bracketed, rounded_steps_bracket_exact_values,
};
pub use opening::{
    down_steps_are_those_of_iteration, exact_values_are_k_step_values, one_step_is_the_next_value,
};
pub use sweeps::{equal_tables_have_the_same_sweeps, sweeps_agree};

/// The constants are the numbers of the definitions.
pub fn limits()
    ensures steps { MOST_STEPS ≡ most_steps }
    ensures workers { MOST_WORKERS ≡ most_workers }
{}
