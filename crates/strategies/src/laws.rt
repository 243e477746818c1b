//! This module has the laws of strategies, for every question.

mod best;
mod ending;
mod plans;
mod reach;

pub use best::{next_values_are_best, values_are_best};
pub use ending::{plays_end, stopping_brackets_close};
pub use plans::{
    plans_avoid_goals, plans_bound_values, plans_hold_every_strategy,
    plans_reach_against_every_strategy,
};
pub use reach::{reach_counts_ways, reach_rises};
