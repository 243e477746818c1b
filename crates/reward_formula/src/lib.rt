//! This crate reads and prints formulas of expected rewards as PRISM spells them, such as `R{"cost"}<=7/2 [ F "done" ]`:
//! a bound on what is expected to be collected before a state formula holds.
//!
//! `read_any_formula` gives the formula that a text spells, or the first fault of the text with its offset. A text
//! whose bound is one of `P` is read as `formula_reader` reads it. `print_any_formula` gives the one spelling of a
//! formula, from which it is read again. The rules of formulas of rewards are `IsRewardFormula` of `specs/Rules.antt`,
//! over the tokens of `formula_tokens`; `specs/Grammar.antt` gives the formula by cases, and `laws` says that both
//! agree. Contracts see a formula as a tree of `specs/Formula.antt`, by `any_of`.
#![tactic(auto)]

mod bounds;
mod formula;
mod goals;
pub mod laws;
mod print;
mod read;

pub use formula::{AnyFormula, RewardBound, RewardFormula};
pub use print::print_any_formula;
pub use read::read_any_formula;
