//! This crate is the run of `stogame` with the commands on expected rewards, from the words and the bytes read to the
//! bytes written.
//!
//! [`run`] is the one call that the program makes, over a shelf of named texts and a sink of bytes. With the words of a
//! command on rewards it is answered here: its contract says for each status what was written and why (`rewards`), what
//! is asked of the shelf and how much is taken from it (`rewards_shelf`), and that what is held and accepted is
//! answered (`rewards_complete`). All other words are those of `stogame_app`, whose promises are kept. `specs/Run.antt`
//! says how a run ends, `specs/Reports.antt` what is reported, and `specs/Commands.antt` what is refused or missing.
//! The reports themselves are made in `reward_reports`.
#![tactic(auto)]

mod audit;
mod certificate;
mod command;
mod ends;
pub mod laws;
mod report;
mod solve;

pub use command::run;
pub use output::Status;
