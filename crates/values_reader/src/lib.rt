//! This crate reads files of values: a number for each state of a model, as other tools write them.
//!
//! [`read_values`] gives as many entries as there are states, each from 0 to 1, or the first fault of the text, with
//! its line. The first line that is not blank says which of two forms the file has: one number a line, in the order of
//! the states, or `STATE=VALUE`, where states that are left out have the value 0.
//!
//! ```text
//! let values = read_values(alloc, &bytes, game.states())?;
//! ```
//!
//! `specs/Lines.antt` says what a line is, `specs/Faults.antt` which fault a text has, and `specs/Values.antt` what the
//! entries are. The only promise about an entry is that it is a number from 0 to 1: a caller takes it as a hint.
#![tactic(auto)]

mod fault;
mod in_order;
mod line;
mod lines;
mod named;
mod number;
mod read;

pub use fault::{ValuesCause, ValuesEnd, ValuesFault};
pub use read::read_values;
