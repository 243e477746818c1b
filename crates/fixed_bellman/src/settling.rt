//! This module says whether the down step of a table rises anywhere. It compares sums with entries, and never divides.

ghost use Rattle.std.specs.Prelude.{◌≡◌, ◌<◌, ◌≤◌, ◌↔◌, length, slice_index, All, IsTrue};
ghost use Rattle.game_model.specs.Query.{states};
ghost use Rattle.game_model.specs.Values.{optimum};
ghost use Rattle.game_model.specs.Limits.{unit};
ghost use Rattle.game_model.specs.Rounded.{down_value, down_step, IsSettled};

use crate::sum::table_quotient;
use game_model::{Question, Row, Side, UNIT};

/// Returns whether no state's down value is above its entry. It ends at the first one that is.
pub fn settled(question: &Question, table: &[u64]) -> bool
    requires length { length table.now ≡ states question.now }
    requires units { All (λ v. v ≤ unit) table.now }
    ensures { IsTrue result ↔ IsSettled question.now (slice_index table.now) }
{
    for state in 0..question.game().states() {
        if rises(question, state, table) {
            return false;
        }
    }
    true
}

/// Returns whether the down step of a table at a state is above its entry.
fn rises(question: &Question, state: u32, table: &[u64]) -> bool
    requires state { state < states question.now }
    requires length { length table.now ≡ states question.now }
    requires units { All (λ v. v ≤ unit) table.now }
    ensures { IsTrue result ↔ (slice_index table.now state < down_step question.now (slice_index table.now) state) }
{
    question.invariant();
    let entry = table[state as usize];
    if question.is_goal(state) {
        return entry < UNIT;
    }
    if question.is_dead(state) {
        return false;
    }
    let row = question.row(state);
    match question.side(state) {
        Side::Max => some_above(&row, table, entry),
        Side::Min => all_above(&row, table, entry),
    }
}

/// Returns whether the value of some choice of a row, rounded down, is above a floor.
pub fn some_above(row: &Row<'_>, table: &[u64], floor: u64) -> bool
    requires inside { All (λ m. All (λ e. e.to < length table.now) m.edges) row.now }
    requires units { All (λ v. v ≤ unit) table.now }
    requires floor { floor ≤ unit }
    ensures { IsTrue result ↔ (floor < optimum Side.Max (down_value (slice_index table.now)) row.now) }
{
    for choice in 0..row.choices() {
        if table_quotient(row, choice, table).down_above(floor) {
            return true;
        }
    }
    false
}

/// Returns whether the values of all choices of a row, rounded down, are above a floor.
pub fn all_above(row: &Row<'_>, table: &[u64], floor: u64) -> bool
    requires inside { All (λ m. All (λ e. e.to < length table.now) m.edges) row.now }
    requires units { All (λ v. v ≤ unit) table.now }
    requires floor { floor ≤ unit }
    ensures { IsTrue result ↔ (floor < optimum Side.Min (down_value (slice_index table.now)) row.now) }
{
    row.invariant();
    for choice in 0..row.choices() {
        if !table_quotient(row, choice, table).down_above(floor) {
            return false;
        }
    }
    true
}
