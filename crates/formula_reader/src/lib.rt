//! This crate reads formulas of PCTL (Hansson and Jonsson 1994) and rPATL (Chen et al. 2013) as PRISM spells them: a
//! bound on the probability of a path with `F` or `U`, with a deadline in steps or without, `X` or `G`. Formulas that
//! compare with a threshold may also be inside state formulas, to any depth up to a limit.
//!
//! `read_formula` gives the formula that a text spells, or the first fault of the text with its offset. The rules of
//! the grammar are `IsFormula` of `specs/Rules.antt`, over the tokens of `formula_tokens`. Contracts see a formula as a
//! `Tree` of `specs/Formula.antt`, by `tree_of`. The crate does not check whether a model has the labels and players
//! that a formula names.
#![tactic(auto)]

mod deadlines;
mod formula;
mod heads;
pub mod laws;
mod levels;
mod limits;
mod read;
mod states;

pub use formula::{Bound, Comparison, Formula, Names, PathKind, StateFormula};
pub use heads::read_coalition;
pub use limits::{MOST_NESTED, MOST_STEPS};
pub use read::read_formula;
pub use states::{ReadState, begins_formula, read_state, unquoted};
