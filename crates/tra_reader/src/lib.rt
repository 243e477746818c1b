//! This crate reads transition files: the explicit `.tra` form of an MDP or a DTMC, as the PRISM manual describes it.
//!
//! `transition_lines` says how a line is spelled. Lines come in any order, and those of one choice to one destination
//! add up. A state without a line has one choice, a move to itself, and no state has more than 16,384 choices.
//!
//! ```text
//! let game = read_tra(alloc, b"3 3 5\n0 0 0 0.5\n0 0 1 0.25\n0 0 2 0.25\n1 0 1 1\n2 0 2 1\n")?;
//! ```
//!
//! `read_tra` gives the game that a text denotes, or the text's first fault with its line: the faults of the header,
//! then those of the lines in their order, then those of the whole text. A text whose lines come in the order of their
//! choices is read in one pass, and of its lines only those of one choice are kept beside the game. Any other text is
//! read again from its start, which takes 48 bytes of memory a line and the sort's own room. If a line has an action,
//! one entry a choice and the first action of each choice are kept as well. `read_tra_from` reads a file on a shelf, a
//! piece at a time, and gives the same answer in whatever pieces it comes.
#![tactic(auto)]

mod actions;
mod any_order;
mod body;
mod build;
mod build_state;
mod file;
mod finished_choices;
mod game_in_order;
mod line_actions;
mod order;
mod ordered;
mod reader;
mod stop;

pub use file::read_tra_from;
pub use reader::read_tra;
pub use transition_lines::{MOST_LINES, MOST_STATED_CHOICES, TraCause, TraFault};
