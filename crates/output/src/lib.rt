//! This crate has what a run prints: the text of a report, with the status that its lines ask for, and the line of a
//! refusal.
//!
//! [`report_of`] makes the report of some states: a line for each, with the bounds that two tables have and what these
//! say of a bound. A certificate may follow the lines, as `specs/Outputs.antt` says. [`Status`] says how a run ends,
//! even if it answers nothing.
//!
//! A [`Refusal`] is the first fault of what a run was given. It is a fault of one of its texts ([`Text`]), with the
//! line; of the formula, with the place; of the question; of a certificate; or of values to begin with.
//! [`refusal_line`] is its line, with the printed name of the cause and what it carries, and [`usage_line`] is the line
//! for words that denote no command. The readers also end because memory ran out, which is no fault of what was given:
//! `specs/Caused.antt` says which refusals have another cause.
//!
//! [`laws`] says that an output has one reading, and that no two refusals have one line: numbers of at most 64 digits
//! are written in full, and [`Refusal::invariant`] says that a refusal's numbers are.
#![tactic(auto)]

mod answer;
mod causes;
pub mod laws;
mod printable;
mod refusal;
mod status;

pub use answer::{Answer, is_mirrored, report_of};
pub use causes::number_cause;
pub use refusal::{Refusal, Text, refusal_line, usage_line};
pub use status::Status;
