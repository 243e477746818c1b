//! This module keeps lower and upper bounds side by side, and takes the step of both.

ghost use Rattle.std.specs.Prelude.{◌≡◌, ◌<◌, ◌≤◌, length, slice_index, All};
ghost use Rattle.game_model.specs.Game.{choices_of};
ghost use Rattle.game_model.specs.Query.{states};
ghost use Rattle.game_model.specs.Values.{optimum};
ghost use Rattle.game_model.specs.Rounded.{down_value, up_value, down_step, up_step};
ghost use Rattle.fixed_bellman.specs.Bounds.{lowers, uppers, AreUnits};

use crate::bound_sums::quotients;
use game_model::{Question, Side, UNIT};

/// These are a lower and an upper bound of the value of a state, in units.
#[derive(Clone, Copy)]
pub struct Bounds {
    /// This is the lower bound.
    pub lower: u64,
    /// This is the upper bound.
    pub upper: u64,
}

/// Returns the step of both bounds of a state: the down step of the lower bounds, and the up step of the upper ones. It
/// goes over the edges of each choice once.
pub fn step_bounds(question: &Question, state: u32, table: &[Bounds]) -> Bounds
    requires state { state < states question.now }
    requires length { length table.now ≡ states question.now }
    requires units { All AreUnits table.now }
    ensures lower { result.lower ≡ down_step question.now (slice_index (lowers table.now)) state }
    ensures upper { result.upper ≡ up_step question.now (slice_index (uppers table.now)) state }
    ensures units { AreUnits result }
{
    if question.is_goal(state) {
        return Bounds {
            lower: UNIT,
            upper: UNIT,
        };
    }
    if question.is_dead(state) {
        return Bounds { lower: 0, upper: 0 };
    }
    match question.side(state) {
        Side::Max => greatest_bounds(question, state, table),
        Side::Min => least_bounds(question, state, table),
    }
}

/// Returns the greatest lower and the greatest upper value of the choices of a state.
fn greatest_bounds(question: &Question, state: u32, table: &[Bounds]) -> Bounds
    requires state { state < states question.now }
    requires length { length table.now ≡ states question.now }
    requires units { All AreUnits table.now }
    ensures lower { result.lower ≡ optimum Side.Max (down_value (slice_index (lowers table.now)))
        (choices_of question.now.game state) }
    ensures upper { result.upper ≡ optimum Side.Max (up_value (slice_index (uppers table.now)))
        (choices_of question.now.game state) }
    ensures units { AreUnits result }
{
    question.invariant();
    let row = question.row(state);
    let mut lower = 0;
    let mut upper = 0;
    for choice in 0..row.choices() {
        let (low, high) = quotients(&row, choice, table);
        if low.down_above(lower) {
            lower = low.down();
        }
        if high.up_above(upper) {
            upper = high.up();
        }
    }
    Bounds { lower, upper }
}

/// Returns the least lower and the least upper value of the choices of a state.
fn least_bounds(question: &Question, state: u32, table: &[Bounds]) -> Bounds
    requires state { state < states question.now }
    requires length { length table.now ≡ states question.now }
    requires units { All AreUnits table.now }
    ensures lower { result.lower ≡ optimum Side.Min (down_value (slice_index (lowers table.now)))
        (choices_of question.now.game state) }
    ensures upper { result.upper ≡ optimum Side.Min (up_value (slice_index (uppers table.now)))
        (choices_of question.now.game state) }
    ensures units { AreUnits result }
{
    question.invariant();
    let row = question.row(state);
    let mut lower = UNIT;
    let mut upper = UNIT;
    for choice in 0..row.choices() {
        let (low, high) = quotients(&row, choice, table);
        if low.down_below(lower) {
            lower = low.down();
        }
        if high.up_below(upper) {
            upper = high.up();
        }
    }
    Bounds { lower, upper }
}
