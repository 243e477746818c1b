//! This module makes the formula of probabilities that has the question of a formula of rewards.

ghost use Rattle.std.specs.Prelude.{◌≡◌, IfOk};
ghost use Rattle.formula_reader.specs.Formula.{tree_of};
ghost use Rattle.reward_formula.specs.Formula.{reward_tree_of};
ghost use Rattle.reward_inputs.specs.Reach.{no_threshold, reach_tree, sense_of};

use formula_reader::{Bound, Formula, PathKind, StateFormula};
use fractions::{Frac, read_number};
use game_outside::OutOfMemory;
use reward_formula::{RewardBound, RewardFormula};
use rpatl_syntax::{copied_state, copied_team};
use std::alloc::Global;

/// Makes the formula of probabilities with the path `F goal` that has the question of a formula of rewards.
pub fn reach_of(alloc: Global, formula: &RewardFormula) -> Result<Formula, OutOfMemory>
    ensures { IfOk result (λ other. tree_of other ≡ reach_tree (reward_tree_of formula.now)) }
{
    Ok(Formula {
        coalition: copied_team(alloc, &formula.coalition)?,
        bound: sense_of(&formula.bound),
        kind: PathKind::Until,
        left: StateFormula::True,
        right: copied_state(alloc, &formula.goal)?,
    })
}

// Returns a bound on a probability in the same sense.
fn sense_of(bound: &RewardBound) -> Bound
    ensures { result ≡ sense_of bound.now }
{
    match bound {
        RewardBound::AtLeast(_) => Bound::AtLeast(no_threshold()),
        RewardBound::Above(_) => Bound::Above(no_threshold()),
        RewardBound::AtMost(_) => Bound::AtMost(no_threshold()),
        RewardBound::Below(_) => Bound::Below(no_threshold()),
        RewardBound::AskMax => Bound::AskMax,
        RewardBound::AskMin => Bound::AskMin,
    }
}

// Returns the threshold 0, which plays no part.
fn no_threshold() -> Frac
    ensures { result ≡ no_threshold }
{
    match read_number(b"0") {
        Ok(number) => number,
        Err(_) => unreachable!(),
    }
}
