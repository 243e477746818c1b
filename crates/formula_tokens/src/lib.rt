//! This crate finds the tokens of a formula: words, numbers, quoted names and signs, each as long as it goes on, with
//! blanks between them.
//!
//! `next_lead` and `next_token` give what comes next behind a `Cursor`, and `behind` and `behind_if` pass over a token.
//! A `FormulaFault` says why a text is no formula, with its offset. The rules by which a text is cut into tokens are
//! `AreCut` of `specs/TokenRules.antt`, and `tokens_of` of `specs/Tokens.antt` gives the tokens by cases: `laws` says
//! that both agree. Contracts see what is left of a text as `Tokens`.
#![tactic(auto)]

mod cursor;
mod fault;
mod front;
pub mod laws;
mod limits;
mod tokens;

pub use cursor::Cursor;
pub use fault::{FormulaCause, FormulaFault};
pub use limits::{LONGEST, LONGEST_NAME};
pub use tokens::{Lead, Token, behind, behind_if, next_lead, next_token};
