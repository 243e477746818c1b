//! This module makes state formulas by their operators, which are listed from the one that binds weakest.

ghost use Rattle.std.specs.Prelude.{◌≡◌, MatchResult, option_map};
ghost use Rattle.formula_tokens.specs.Fault.{IsOutOfMemory};
ghost use Rattle.formula_reader.specs.Formula.{state_of, names_of, Not, Inner};
ghost use Rattle.formula_reader.specs.inside.Levels.{sign_of, join_of};

use crate::formula::{Bound, Formula, Names, PathKind, StateFormula};
use formula_tokens::{FormulaCause, FormulaFault};
use std::alloc::Global;

/// A level is an operator that makes one state formula of two.
#[derive(Clone, Copy, Debug, PartialEq, Eq)]
pub enum Level {
    Implication,
    Disjunction,
    Conjunction,
}

impl Level {
    /// Spells the operator of the level.
    pub fn sign(self) -> &'static str
        ensures { result.now ≡ sign_of self }
    {
        match self {
            Level::Implication => "=>",
            Level::Disjunction => "|",
            Level::Conjunction => "&",
        }
    }

    /// Makes the formula of two operands under the operator of the level. The only error is that memory ran out.
    pub fn join(
        self,
        alloc: Global,
        left: StateFormula,
        right: StateFormula,
    ) -> Result<StateFormula, FormulaFault>
        ensures { MatchResult result (λ whole. state_of whole
            ≡ join_of self (state_of left) (state_of right)) IsOutOfMemory }
    {
        let left = boxed(alloc, left)?;
        let right = boxed(alloc, right)?;
        match self {
            Level::Implication => Ok(StateFormula::Implies(left, right)),
            Level::Disjunction => Ok(StateFormula::Or(left, right)),
            Level::Conjunction => Ok(StateFormula::And(left, right)),
        }
    }
}

/// Makes the negation of a state formula.
pub fn negation(alloc: Global, state: StateFormula) -> Result<StateFormula, FormulaFault>
    ensures { MatchResult result (λ whole. state_of whole ≡ Not (state_of state)) IsOutOfMemory }
{
    let state = boxed(alloc, state)?;
    Ok(StateFormula::Not(state))
}

/// Makes a state formula of the parts of a formula: it holds at the states where the formula is true.
pub fn inner(
    alloc: Global,
    coalition: Option<Names>,
    bound: Bound,
    kind: PathKind,
    left: StateFormula,
    right: StateFormula,
) -> Result<StateFormula, FormulaFault>
    ensures { MatchResult result (λ whole. state_of whole ≡ Inner (option_map names_of coalition) bound kind
        (state_of left) (state_of right)) IsOutOfMemory }
{
    let formula = Formula {
        coalition,
        bound,
        kind,
        left,
        right,
    };
    match Box::new(alloc, formula) {
        Ok(place) => Ok(StateFormula::Inner(place)),
        Err(_) => Err(FormulaFault::new(0, FormulaCause::OutOfMemory)),
    }
}

fn boxed(alloc: Global, state: StateFormula) -> Result<Box<StateFormula>, FormulaFault>
    ensures { MatchResult result (λ place. place.value ≡ state) IsOutOfMemory }
{
    match Box::new(alloc, state) {
        Ok(place) => Ok(place),
        Err(_) => Err(FormulaFault::new(0, FormulaCause::OutOfMemory)),
    }
}
