//! This module says whether choices give a state its entry in a table. It compares sums with entries, and never
//! divides.

ghost use Rattle.std.specs.Prelude.{◌≡◌, ◌*◌, ◌<◌, ◌≤◌, ◌↔◌, length, slice_index, All, IsTrue};
ghost use Rattle.game_model.specs.Game.{choice_among};
ghost use Rattle.game_model.specs.Query.{states};
ghost use Rattle.game_model.specs.Values.{weighted_sum};
ghost use Rattle.game_model.specs.Limits.{unit};
ghost use Rattle.game_model.specs.Rounded.{down_step};

use crate::settling::{all_above, some_above};
use crate::sum::table_quotient;
use game_model::{Question, Row, Side};

/// Returns whether the weighted average of a choice of a row over a table is at least this value.
#[inline(always)]
pub fn gives(row: &Row<'_>, choice: u32, table: &[u64], value: u64) -> bool
    requires choice { choice < length row.now }
    requires inside { All (λ e. e.to < length table.now) (choice_among row.now choice).edges }
    requires units { All (λ v. v ≤ unit) table.now }
    requires value { value ≤ unit }
    ensures { IsTrue result ↔ (value * (choice_among row.now choice).total
        ≤ weighted_sum (slice_index table.now) (choice_among row.now choice).edges) }
{
    row.invariant();
    !table_quotient(row, choice, table).down_below(value)
}

/// Returns whether the weighted average of a choice of a row over a table is at most this value.
#[inline(always)]
pub fn holds(row: &Row<'_>, choice: u32, table: &[u64], value: u64) -> bool
    requires choice { choice < length row.now }
    requires inside { All (λ e. e.to < length table.now) (choice_among row.now choice).edges }
    requires units { All (λ v. v ≤ unit) table.now }
    requires value { value ≤ unit }
    ensures { IsTrue result ↔ (weighted_sum (slice_index table.now) (choice_among row.now choice).edges
        ≤ value * (choice_among row.now choice).total) }
{
    row.invariant();
    !table_quotient(row, choice, table).up_above(value)
}

/// Returns whether the down step of a table at a state is at least its entry.
pub fn is_given(question: &Question, state: u32, table: &[u64]) -> bool
    requires state { state < states question.now }
    requires length { length table.now ≡ states question.now }
    requires units { All (λ v. v ≤ unit) table.now }
    ensures { IsTrue result ↔ (slice_index table.now state ≤ down_step question.now (slice_index table.now) state) }
{
    question.invariant();
    let entry = table[state as usize];
    if entry == 0 || question.is_goal(state) {
        return true;
    }
    if question.is_dead(state) {
        return false;
    }
    let row = question.row(state);
    match question.side(state) {
        Side::Max => some_above(&row, table, entry - 1),
        Side::Min => all_above(&row, table, entry - 1),
    }
}
