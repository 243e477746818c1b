//! This crate reads label files and owner files of explicit models.
//!
//! `read_labels` gives the labels of a model's states and `read_owners` the players that own them, each from the bytes
//! of its file and the number of states, or the first fault of the text with its line. `label_lines` says how a line is
//! spelled. If a text denotes labels or owners, the answer is these, unless memory runs out. `read_labels_from` and
//! `read_owners_from` read a file on a shelf, a piece at a time, and give the same answer in whatever pieces it comes.
//!
//! ```text
//! let labels = read_labels(alloc, &bytes, game.states())?;
//! let initial = labels.states_of(alloc, b"init")?;
//! let owners = Owners::single(alloc, game.states())?;
//! ```
//!
//! `Labels::marks`, `Labels::knows`, `Owners::knows` and `Owners::owner` take no memory and constant time. Contracts
//! see `Labels` as a `Labelling`, a list of names with a mark for each state, and `Owners` as an `Ownership`.
#![tactic(auto)]

mod files;
mod label_sets;
mod label_text;
mod labels;
mod owner_table;
mod owner_text;
mod owners;
mod state_set;

pub use files::{read_labels_from, read_owners_from};
pub use label_lines::{
    GREATEST_INDEX, LONGEST_NAME, LabCause, LabFault, MOST_LABELS, MOST_PLAYERS,
};
pub use label_text::read_labels;
pub use labels::Labels;
pub use owner_text::read_owners;
pub use owners::Owners;
