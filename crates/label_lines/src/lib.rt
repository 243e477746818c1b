//! This crate reads the lines of label files and owner files, and defines the labels and owners that a text of such
//! lines denotes.
//!
//! Both formats are one: a header of items `index="name"`, and lines `state: index index ..` in any order. `Header` has
//! the items, `read_state` reads the front of a line, and `HeadedLines` reads a whole text, with a reader of the lines
//! behind the header. `DenotesLabels` and `DenotesOwners` of `specs/Denotes.antt` say what a text denotes. `labels_of`
//! and `owners_of` give the same by cases, with the first fault: `laws` says that both agree.
//!
//! The crate says nothing of what PRISM reads or refuses beyond these rules.
#![tactic(auto)]

mod faults;
mod headed_lines;
mod header;
mod item;
mod kind;
pub mod laws;
mod state_line;

pub use faults::{LabCause, LabFault};
pub use headed_lines::{BehindHeader, HeadedLines};
pub use header::Header;
pub use kind::{FileKind, GREATEST_INDEX, LONGEST_NAME, MOST_LABELS, MOST_PLAYERS};
pub use state_line::{fault_of_numbers, read_state};
