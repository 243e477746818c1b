//! This crate offers real files and a real writer as the shelf and the sink of a run. No contract says what they hold:
//! they are the trusted edge.
//!
//! [`FileShelf`] and [`OutSink`] keep what `game_outside` asks of each shelf and each sink, and tell nothing of the
//! bytes. Each remembers why the last call that failed did so, for a line on standard error; no clause speaks of that.
//! A file that is not regular, such as a pipe, is not begun twice in a row.
#![tactic(auto)]

mod failure;
mod file_shelf;
mod one_line;
mod out_sink;

pub use failure::Failure;
pub use file_shelf::FileShelf;
pub use one_line::OneLine;
pub use out_sink::OutSink;
