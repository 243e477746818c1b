//! This module says what a formula asks of a game.

ghost use Rattle.std.specs.Prelude.{◌≡◌};

use crate::model::Loaded;
use formula_reader::{Formula, PathKind};
use formula_sets::{Posed, PosedNext};

/// A formula asks this, by the kind of its paths.
#[derive(Drop)]
pub enum Problem<'g> {
    /// `F` and `U` ask to reach a goal. `G` asks to reach one of its dual, which comes with the question.
    Reach(Posed<'g>, Option<Formula>),
    /// `F<=k` and `U<=k` ask to reach a goal within this many steps.
    Within(Posed<'g>, u32),
    /// `X` asks to be where the right side holds after one step.
    Next(PosedNext<'g>),
    /// A formula with others inside has what was loaded, and the initial states.
    Nested(&'g Loaded, Vec<u32>),
}

impl<'g> Problem<'g> {
    ghost use Rattle.std.specs.Prelude.{Some};
    ghost use Rattle.rpatl_syntax.specs.Dual.{answered};
    ghost use Rattle.formula_reader.specs.Formula.{tree_of};
    ghost use Rattle.formula_sets.specs.Seen.{posing_of};
    ghost use Rattle.inputs.specs.Problems.{posing_in};
    ghost use Rattle.inputs.specs.SeenProblems.{HasDual, IsUnbounded, problem_of};

    /// Returns the question whose goals are reached without a bound on the steps. For `G` it is that of its dual.
    pub fn reached(&self) -> &Posed<'g>
        requires { IsUnbounded self.now }
        ensures { posing_in (problem_of self.now) ≡ Some (posing_of result.now) }
    {
        match self {
            Problem::Reach(posed, _) => posed,
            Problem::Within(_, _) | Problem::Next(_) | Problem::Nested(_, _) => unreachable!(),
        }
    }

    /// Returns the formula whose question is answered. For `G` it is the dual.
    pub fn answered<'a>(&'a self, formula: &'a Formula) -> &'a Formula
        requires unbounded { IsUnbounded self.now }
        requires dual { HasDual (tree_of formula.now) self.now }
        ensures { tree_of result.now ≡ answered (tree_of formula.now) }
    {
        match self {
            Problem::Reach(_, Some(dual)) => dual,
            Problem::Reach(_, None) => formula,
            Problem::Within(_, _) | Problem::Next(_) | Problem::Nested(_, _) => unreachable!(),
        }
    }
}

/// A command takes these formulas.
#[derive(Clone, Copy, Debug, PartialEq, Eq)]
pub enum Paths {
    /// It takes all formulas.
    Any,
    /// It takes those without a bound on the steps and none inside: `F`, `U` and `G`.
    Unbounded,
    /// It takes only `F` and `U`, and none inside.
    Reaching,
}

impl Paths {
    ghost use Rattle.std.specs.Prelude.{◌&&◌};
    ghost use Rattle.formula_reader.specs.Formula.{is_flat, tree_of};
    ghost use Rattle.inputs.specs.Problems.{takes, takes_formula};

    /// Returns whether a formula with such a path and none inside is taken.
    pub fn takes(self, kind: PathKind) -> bool
        ensures { result ≡ takes self kind }
    {
        match (self, kind) {
            (Paths::Any, _) | (_, PathKind::Until) | (Paths::Unbounded, PathKind::Always) => true,
            (_, _) => false,
        }
    }

    /// Returns whether a formula is taken. `flat` says whether no formula is inside.
    pub fn takes_formula(self, formula: &Formula, flat: bool) -> bool
        requires { flat ≡ (is_flat (tree_of formula.now).left && is_flat (tree_of formula.now).right) }
        ensures { result ≡ takes_formula self (tree_of formula.now) }
    {
        if flat {
            self.takes(formula.kind)
        } else {
            matches!(self, Paths::Any)
        }
    }
}
