//! This module has the laws of rounded steps and of sound bounds, for every question and every table.

mod bounds;
mod low;
mod steps;
mod values;

pub use bounds::{
    high_tables_are_not_exceeded, high_tables_are_not_reached, low_tables_are_exceeded,
    low_tables_are_reached, near_tables_are_exceeded, near_tables_are_reached,
};
pub use low::{down_steps_stay_low, low_tables_are_near, raised_tables_stay_low};
pub use steps::{down_steps_keep_order, down_steps_rise, settled_tables_are_above_down_steps};
pub use values::{
    down_steps_are_below_values, down_steps_come_near, dual_bounds_come_near,
    inductive_tables_are_high, plans_reach_at_most_the_value,
};
