//! This module has the laws of truth, of values and of bounds. Each function does nothing: its contract is the law.

mod coarse;
mod truth;

pub use coarse::{there_are_coarse_bounds, undecided_only_where_coarse_bounds_are};
pub use truth::{more_goals_give_no_smaller_values, there_is_a_truth, there_is_one_truth};
