//! This module takes the up step of a table.

ghost use Rattle.std.specs.Prelude.{◌≡◌, ◌<◌, ◌≤◌, length, slice_index, All};
ghost use Rattle.game_model.specs.Game.{choices_of};
ghost use Rattle.game_model.specs.Query.{states};
ghost use Rattle.game_model.specs.Values.{optimum};
ghost use Rattle.game_model.specs.Limits.{unit};
ghost use Rattle.game_model.specs.Rounded.{up_value, up_step};

use crate::sum::table_quotient;
use game_model::{Question, Side, UNIT};

/// Returns the greatest up value of the choices of a state.
fn greatest_up(question: &Question, state: u32, table: &[u64]) -> u64
    requires state { state < states question.now }
    requires length { length table.now ≡ states question.now }
    requires units { All (λ v. v ≤ unit) table.now }
    ensures value { result ≡ optimum Side.Max (up_value (slice_index table.now)) (choices_of question.now.game state) }
    ensures units { result ≤ unit }
{
    question.invariant();
    let row = question.row(state);
    let mut best = 0;
    for choice in 0..row.choices() {
        let given = table_quotient(&row, choice, table);
        if given.up_above(best) {
            best = given.up();
        }
    }
    best
}

/// Returns the least up value of the choices of a state.
fn least_up(question: &Question, state: u32, table: &[u64]) -> u64
    requires state { state < states question.now }
    requires length { length table.now ≡ states question.now }
    requires units { All (λ v. v ≤ unit) table.now }
    ensures value { result ≡ optimum Side.Min (up_value (slice_index table.now)) (choices_of question.now.game state) }
    ensures units { result ≤ unit }
{
    question.invariant();
    let row = question.row(state);
    let mut best = UNIT;
    for choice in 0..row.choices() {
        let given = table_quotient(&row, choice, table);
        if given.up_below(best) {
            best = given.up();
        }
    }
    best
}

/// Returns the up step of a table at a state.
pub fn up_state(question: &Question, state: u32, table: &[u64]) -> u64
    requires state { state < states question.now }
    requires length { length table.now ≡ states question.now }
    requires units { All (λ v. v ≤ unit) table.now }
    ensures value { result ≡ up_step question.now (slice_index table.now) state }
    ensures units { result ≤ unit }
{
    if question.is_goal(state) {
        return UNIT;
    }
    if question.is_dead(state) {
        return 0;
    }
    match question.side(state) {
        Side::Max => greatest_up(question, state, table),
        Side::Min => least_up(question, state, table),
    }
}
