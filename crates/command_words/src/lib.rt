//! This crate reads the words of the command line: what `check`, `audit`, `solve`, `make` and `sure` take, and nothing
//! else.
//!
//! [`read_words`] gives the command that the words denote. The first word names it, and the words after it are as
//! `clap` reads them, by the definitions of `specs/Grammar.antt`; numbers are in their ranges, and files have names.
//! [`refused_words`] says what is wrong with words that denote none.
#![tactic(auto)]

mod grammar;
pub mod laws;
mod limits;
mod refused;
mod said;
mod words;

pub use grammar::{asked_command, flag, option, positional};
pub use refused::{fault_found, refused_words};
pub use said::{asked_words, file_word, is_given};
pub use words::{
    AskedWords, AuditWords, CheckWords, CommandWords, MakeWords, SolveWords, read_words, taken,
};
