//! This module finds out if formulas are inside a formula.

ghost use Rattle.std.specs.Prelude.{◌≡◌, ◌&&◌};
ghost use Rattle.formula_reader.specs.Formula.{is_flat, state_of};

use formula_reader::{Formula, StateFormula};

/// Returns whether no formula is inside the sides of a formula.
pub fn is_flat(formula: &Formula) -> bool
    ensures { result ≡ (is_flat (state_of formula.now.left) && is_flat (state_of formula.now.right)) }
{
    is_flat_state(&formula.left) && is_flat_state(&formula.right)
}

fn is_flat_state(state: &StateFormula) -> bool
    ensures { result ≡ is_flat (state_of state.now) }
{
    match state {
        StateFormula::True | StateFormula::False | StateFormula::Label(_) => true,
        StateFormula::Not(x) => is_flat_state(x),
        StateFormula::And(x, y) | StateFormula::Or(x, y) | StateFormula::Implies(x, y) => {
            is_flat_state(x) && is_flat_state(y)
        }
        StateFormula::Inner(_) => false,
    }
}
