//! This module makes the formula by which one with `G` is judged.

ghost use Rattle.std.specs.Prelude.{◌≡◌, IfOk, option_map};
ghost use Rattle.rpatl_syntax.specs.Dual.{dual_bound, dual_of, IsAtMostOne};
ghost use Rattle.formula_reader.specs.Formula.{state_of, tree_of, names_of};

use formula_reader::{Bound, Formula, Names, PathKind, StateFormula};
use game_outside::{Name, OutOfMemory};
use std::alloc::Global;

/// Makes the formula by which one with `G y` is judged. It has the same coalition and the path `F !y`, whose
/// probability is 1 minus that of `G y`. So it has the threshold `1 - p`, and `>=` is exchanged with `<=`, `>` with
/// `<`, and `Pmax=?` with `Pmin=?`.
pub fn dual(alloc: Global, formula: &Formula) -> Result<Formula, OutOfMemory>
    requires always { formula.now.kind ≡ PathKind.Always }
    requires share { IsAtMostOne formula.now.bound }
    ensures { IfOk result (λ other. tree_of other ≡ dual_of (tree_of formula.now)) }
{
    Ok(Formula {
        coalition: copied_team(alloc, &formula.coalition)?,
        bound: mirrored(&formula.bound),
        kind: PathKind::Until,
        left: StateFormula::True,
        right: StateFormula::Not(copied_place(alloc, &formula.right)?),
    })
}

// Returns the bound on 1 minus the probability.
fn mirrored(bound: &Bound) -> Bound
    requires { IsAtMostOne bound.now }
    ensures { result ≡ dual_bound bound.now }
{
    match bound {
        Bound::AtLeast(threshold) => Bound::AtMost(threshold.rest()),
        Bound::Above(threshold) => Bound::Below(threshold.rest()),
        Bound::AtMost(threshold) => Bound::AtLeast(threshold.rest()),
        Bound::Below(threshold) => Bound::Above(threshold.rest()),
        Bound::AskMax => Bound::AskMin,
        Bound::AskMin => Bound::AskMax,
    }
}

/// Makes a copy of a coalition, in memory of its own.
pub fn copied_team(alloc: Global, team: &Option<Names>) -> Result<Option<Names>, OutOfMemory>
    ensures { IfOk result (λ copy. option_map names_of copy ≡ option_map names_of team.now) }
{
    match team {
        None => Ok(None),
        Some(names) => Ok(Some(copied_names(alloc, names)?)),
    }
}

fn copied_names(alloc: Global, names: &Names) -> Result<Names, OutOfMemory>
    ensures { IfOk result (λ copy. names_of copy ≡ names_of names.now) }
{
    let mut list = Vec::new(alloc);
    for name in &names.list {
        list.push(Name::from_bytes(alloc, name.as_bytes())?)?;
    }
    Ok(Names { list })
}

/// Makes a copy of a state formula, in memory of its own.
#[cycle(copied)]
pub fn copied_state(alloc: Global, state: &StateFormula) -> Result<StateFormula, OutOfMemory>
    ensures { IfOk result (λ copy. state_of copy ≡ state_of state.now) }
{
    match state {
        StateFormula::True => Ok(StateFormula::True),
        StateFormula::False => Ok(StateFormula::False),
        StateFormula::Label(name) => {
            let name = Name::from_bytes(alloc, name.as_bytes())?;
            Ok(StateFormula::Label(name))
        }
        StateFormula::Not(x) => {
            let x = copied_place(alloc, x)?;
            Ok(StateFormula::Not(x))
        }
        StateFormula::And(x, y) => {
            let x = copied_place(alloc, x)?;
            let y = copied_place(alloc, y)?;
            Ok(StateFormula::And(x, y))
        }
        StateFormula::Or(x, y) => {
            let x = copied_place(alloc, x)?;
            let y = copied_place(alloc, y)?;
            Ok(StateFormula::Or(x, y))
        }
        StateFormula::Implies(x, y) => {
            let x = copied_place(alloc, x)?;
            let y = copied_place(alloc, y)?;
            Ok(StateFormula::Implies(x, y))
        }
        StateFormula::Inner(formula) => {
            let copy = copied_formula(alloc, formula)?;
            match Box::new(alloc, copy) {
                Ok(place) => Ok(StateFormula::Inner(place)),
                Err(_) => Err(OutOfMemory {}),
            }
        }
    }
}

// Makes a copy with sides of its own.
#[cycle(copied)]
fn copied_formula(alloc: Global, formula: &Formula) -> Result<Formula, OutOfMemory>
    ensures { IfOk result (λ copy. tree_of copy ≡ tree_of formula.now) }
{
    let coalition = copied_team(alloc, &formula.coalition)?;
    let left = copied_state(alloc, &formula.left)?;
    let right = copied_state(alloc, &formula.right)?;
    Ok(Formula {
        coalition,
        bound: formula.bound,
        kind: formula.kind,
        left,
        right,
    })
}

// Makes a copy in memory of its own.
#[cycle(copied)]
fn copied_place(alloc: Global, state: &StateFormula) -> Result<Box<StateFormula>, OutOfMemory>
    ensures { IfOk result (λ place. state_of place.value ≡ state_of state.now) }
{
    let copy = copied_state(alloc, state)?;
    match Box::new(alloc, copy) {
        Ok(place) => Ok(place),
        Err(_) => Err(OutOfMemory {}),
    }
}
