//! This crate reads and prints formulas of PCTL and rPATL. `read_formula` of `formula_reader` reads them, and
//! `print_formula` gives the one spelling of a formula, from which it is read again. `dual` gives the formula by which
//! one with `G` is judged.
#![tactic(auto)]

mod duals;
pub mod laws;
mod print;

pub use duals::{copied_state, copied_team, dual};
pub use formula_reader::{
    Bound, Formula, MOST_NESTED, MOST_STEPS, Names, PathKind, StateFormula, read_formula,
};
pub use formula_tokens::{FormulaCause, FormulaFault, LONGEST, LONGEST_NAME};
pub use print::{print_formula, put, put_bytes, put_coalition, put_fraction, put_state};
