//! This crate is the run of `stogame`, from the words and the bytes read to the bytes written.
//!
//! `run` is the one call that the program makes, over a shelf of named texts and a sink of bytes; the real files and
//! the real output are in `system_files`. Its contract says for each status what was written and why (`ends`), what is
//! asked of the shelf and how much is taken from it (`shelf`), that a fault is answered only if its count rose
//! (`shelf`, `write_fault`), and that the run does not give up by itself (`complete`). `specs/Run.antt` says how a run
//! ends, `specs/Reports.antt` what is reported, and `specs/Commands.antt` what is refused, missing or accepted. The
//! reports themselves are made in `reports`.
#![tactic(auto)]

mod audit;
mod check;
mod command;
mod ends;
pub mod laws;
mod make;
mod solve;
mod sure;

pub use command::run;
pub use output::Status;
