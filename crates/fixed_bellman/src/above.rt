//! This module takes the step of a state over values that may rise while they are read.

ghost use Rattle.std.specs.Prelude.{◌≡◌, ℕ, ◌<◌, ◌≤◌, length};
ghost use Rattle.game_model.specs.Game.{choices_of, choice_of};
ghost use Rattle.game_model.specs.Query.{states};
ghost use Rattle.game_model.specs.Limits.{unit};
ghost use Rattle.game_model.specs.Rounded.{down_value};
ghost use Rattle.fixed_bellman.specs.Given.{IsFree, IsStepAbove};

use crate::sum::quotient;
use crate::values::Values;
use game_model::{Question, Side, UNIT};

/// Returns the step of a state that is neither goal nor dead, and the choice for it, if the step is above a floor. Else
/// it returns the floor and choice 0. It divides only for a gain.
pub fn step_above<V: Values>(
    question: &Question,
    values: &V,
    pass: &mut V::Pass,
    state: u32,
    floor: u64,
) -> (u64, u32)
    requires fits { (s : ℕ) → s < states question.now → V.fits values.now pass.old s }
    requires state { state < states question.now }
    requires free { IsFree question.now state }
    requires floor { floor ≤ unit }
    ensures onward { V.onward values.now pass.old pass.new }
    ensures step { IsStepAbove question.now (V.seen values.now pass.old)
        (V.seen values.now pass.new) state floor result.0 result.1 }
{
    question.invariant();
    match question.side(state) {
        Side::Max => greatest_above(question, values, pass, state, floor),
        Side::Min => (least_above(question, values, pass, state, floor), 0),
    }
}

/// Returns the greatest value of the choices of a state and the first choice that gives it, if it is above a floor.
/// Else it returns the floor and choice 0.
fn greatest_above<V: Values>(
    question: &Question,
    values: &V,
    pass: &mut V::Pass,
    state: u32,
    floor: u64,
) -> (u64, u32)
    requires fits { (s : ℕ) → s < states question.now → V.fits values.now pass.old s }
    requires state { state < states question.now }
    requires floor { floor ≤ unit }
    ensures onward { V.onward values.now pass.old pass.new }
    ensures units { result.0 ≤ unit }
    ensures floored { floor ≤ result.0 }
    ensures none { result.0 ≡ floor → result.1 ≡ 0 }
    ensures inside { result.1 < length (choices_of question.now.game state) }
    ensures low { (c : ℕ) → c < length (choices_of question.now.game state)
        → down_value (V.seen values.now pass.old) (choice_of question.now.game state c) ≤ result.0 }
    ensures given { floor < result.0 → result.0 ≤ down_value (V.seen values.now pass.new)
        (choice_of question.now.game state result.1) }
    ensures first { (c : ℕ) → c < result.1
        → down_value (V.seen values.now pass.old) (choice_of question.now.game state c) < result.0 }
{
    question.invariant();
    let row = question.row(state);
    let mut best = floor;
    let mut first = 0;
    for choice in 0..row.choices() {
        let given = quotient(&row, choice, values, pass);
        if given.down_above(best) {
            best = given.down();
            first = choice;
        }
    }
    (best, first)
}

/// Returns the least value of the choices of a state, if it is above a floor. Else it returns the floor. It ends at the
/// first choice that is not above the floor.
fn least_above<V: Values>(
    question: &Question,
    values: &V,
    pass: &mut V::Pass,
    state: u32,
    floor: u64,
) -> u64
    requires fits { (s : ℕ) → s < states question.now → V.fits values.now pass.old s }
    requires state { state < states question.now }
    requires floor { floor ≤ unit }
    ensures onward { V.onward values.now pass.old pass.new }
    ensures units { result ≤ unit }
    ensures floored { floor ≤ result }
    ensures low { (c : ℕ) × (c < length (choices_of question.now.game state))
        × (down_value (V.seen values.now pass.old) (choice_of question.now.game state c) ≤ result) }
    ensures given { floor < result → (c : ℕ) → c < length (choices_of question.now.game state)
        → result ≤ down_value (V.seen values.now pass.new) (choice_of question.now.game state c) }
{
    question.invariant();
    let row = question.row(state);
    let mut best = UNIT;
    for choice in 0..row.choices() {
        let given = quotient(&row, choice, values, pass);
        if !given.down_above(floor) {
            return floor;
        }
        if given.down_below(best) {
            best = given.down();
        }
    }
    best
}
