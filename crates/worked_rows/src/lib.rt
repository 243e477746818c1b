//! These are the tests of `run` over worked rows, from the words and the files to the written text. The crate also
//! holds what these tests and those of `outside_rows` share: models, commands, and checks of what is written.
//!
//! A case has a command over a row (a model, a formula and numbers), the text that is written and the status. The
//! expected values were worked out by hand or by a program apart from this one.
#![tactic(auto)]

pub mod asked;
#[cfg(test)]
mod audits;
pub mod cases;
#[cfg(test)]
mod certificates;
pub mod checks;
pub mod coin_loop;
#[cfg(test)]
mod command_lines;
pub mod commands;
#[cfg(test)]
mod formulas;
#[cfg(test)]
mod labels;
#[cfg(test)]
mod made;
#[cfg(test)]
mod many_choices;
pub mod models;
#[cfg(test)]
mod nested;
#[cfg(test)]
mod old_certificates;
#[cfg(test)]
mod other_certificates;
#[cfg(test)]
mod paths;
pub mod printed_plans;
pub mod rows;
#[cfg(test)]
mod solve;
#[cfg(test)]
mod sure;
pub mod tables;
#[cfg(test)]
mod thresholds;
#[cfg(test)]
mod traps;
#[cfg(test)]
mod values;

pub use cases::{
    AUDIT_OF_LOOP_OR_COIN, AUDIT_OF_TWO_PLAYERS, CHECK_OF_AGREEMENT, CHECK_OF_COIN_LOOP,
    COIN_LOOP_OUT_OF_ORDER, Case, DRAWN_GAME, MOST_OF_AGREEMENT, MOST_OF_COIN_LOOP, NO_COMMAND,
    OTHER_VERSION, PLAN_OF_LOOP_OR_COIN, PLAN_OF_TWO_PLAYERS, STATE_OUT_OF_RANGE,
};
pub use checks::writes;
pub use coin_loop::coin_loop_files;
pub use commands::{Command, Ended, Outside, STEP, ends_over, gives};
pub use models::{COIN_LOOP, COIN_LOOP_REPORT, FIRST_IS_TRUE, GOAL_AT_1, SECOND_OWNS_1};
pub use printed_plans::{FIRST_OF_TWO_PLAYERS, MOST_OF_LOOP_OR_COIN};
pub use rows::{ONE_WORKER, Row, ends, file, file_of_bytes, push_times, runs, words};
