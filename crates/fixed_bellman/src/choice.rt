//! This module rounds the value of a choice over a table, and takes the better of two values.

ghost use Rattle.std.specs.Prelude.{◌≡◌, ◌+◌, ◌*◌, ◌<◌, ◌≤◌, length, slice_index, All};
ghost use Rattle.game_model.specs.Game.{choices_of, choice_of};
ghost use Rattle.game_model.specs.Query.{states};
ghost use Rattle.game_model.specs.Values.{better, weighted_sum};
ghost use Rattle.game_model.specs.Limits.{unit};
ghost use Rattle.game_model.specs.Rounded.{down_value, up_value};

use crate::sum::table_quotient;
use game_model::{Question, Side};

/// Returns the value of a choice over a table, rounded down. Goals and dead states have choices too, and there also
/// this is the value of the choice.
pub fn down_choice(question: &Question, state: u32, choice: u32, table: &[u64]) -> u64
    requires state { state < states question.now }
    requires choice { choice < length (choices_of question.now.game state) }
    requires length { length table.now ≡ states question.now }
    requires units { All (λ v. v ≤ unit) table.now }
    ensures value { result ≡ down_value (slice_index table.now) (choice_of question.now.game state choice) }
    ensures units { result ≤ unit }
    // It is the greatest number of units that is not above the weighted average.
    ensures below { result * (choice_of question.now.game state choice).total
        ≤ weighted_sum (slice_index table.now) (choice_of question.now.game state choice).edges }
    ensures greatest { weighted_sum (slice_index table.now) (choice_of question.now.game state choice).edges
        < (result + 1) * (choice_of question.now.game state choice).total }
{
    question.invariant();
    table_quotient(&question.row(state), choice, table).down()
}

/// Returns the value of a choice over a table, rounded up.
pub fn up_choice(question: &Question, state: u32, choice: u32, table: &[u64]) -> u64
    requires state { state < states question.now }
    requires choice { choice < length (choices_of question.now.game state) }
    requires length { length table.now ≡ states question.now }
    requires units { All (λ v. v ≤ unit) table.now }
    ensures value { result ≡ up_value (slice_index table.now) (choice_of question.now.game state choice) }
    ensures units { result ≤ unit }
    // It is the least number of units that is not below the weighted average.
    ensures above { weighted_sum (slice_index table.now) (choice_of question.now.game state choice).edges
        ≤ result * (choice_of question.now.game state choice).total }
    ensures least { result * (choice_of question.now.game state choice).total
        < weighted_sum (slice_index table.now) (choice_of question.now.game state choice).edges +
        (choice_of question.now.game state choice).total }
{
    question.invariant();
    table_quotient(&question.row(state), choice, table).up()
}

/// Returns the better of two values for a side.
pub fn better(side: Side, one: u64, other: u64) -> u64
    ensures { result ≡ better side one other }
{
    match side {
        Side::Max => one.max(other),
        Side::Min => one.min(other),
    }
}
