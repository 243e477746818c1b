//! This crate reads the lines of a transition file, and defines the game that a text of such lines denotes.
//!
//! The first line of an MDP has three whole numbers: states, choices and transition lines. That of a DTMC has two:
//! states and lines. Each further line is a transition: `source choice destination probability` and an action or none.
//! A DTMC's line leaves out the choice. `read_header` and `read_line` give what a line says, or its first fault.
//! `DenotesGame` of `specs/Text.antt` says which game a text denotes, and `game_of` gives the same by cases, with the
//! first fault. `laws` says that both agree, and that the order of the transition lines does not matter.
#![tactic(auto)]

mod fault;
mod header;
pub mod laws;
mod limits;
mod line;

pub use fault::{TraCause, TraFault};
pub use header::{Header, read_header};
pub use limits::{MOST_LINES, MOST_STATED_CHOICES};
pub use line::{Transition, place_at, read_line};
