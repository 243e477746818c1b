//! This module takes the up steps of tables.

ghost use Rattle.std.specs.Prelude.{◌≡◌, ◌≤◌, length, slice_index, All, IfOk, MatchOption};
ghost use Rattle.game_model.specs.Query.{states};
ghost use Rattle.game_model.specs.Limits.{unit};
ghost use Rattle.game_model.specs.Rounded.{up_step, IsBelow};
ghost use Rattle.game_model.specs.Tables.{IsTable};
ghost use Rattle.upper_guess.specs.Guess.{RisesMost};
ghost use Rattle.upper_guess.specs.Parts.{IsFilled};

use crate::part::fill_part;
use game_model::Question;
use game_outside::OutOfMemory;
use std::alloc::Global;

/// One worker or several fill tables with up steps. The steps are the same.
pub trait UpTables {
    // The workers need this to work at the same time.
    ghost can_fill: { Type 0 };

    /// Fills the next table with the up step of a table.
    fn fill(&self, question: &Question, table: &[u64], next: &mut [u64])
        requires can { can_fill }
        requires length { length table.now ≡ states question.now }
        requires units { All (λ v. v ≤ unit) table.now }
        requires next { length next.old ≡ states question.now }
        ensures { IsFilled question.now table.now 0 (states question.now) next.new };
}

/// One worker fills the tables.
#[derive(Drop)]
pub struct Alone {}

impl UpTables for Alone {
    ghost can_fill = { Unit {0} };

    fn fill(&self, question: &Question, table: &[u64], next: &mut [u64]) {
        fill_part(question, table, 0, next);
    }
}

/// Returns the up step of a table, filled by this maker.
pub fn up_table<M: UpTables>(
    maker: &M,
    alloc: Global,
    question: &Question,
    table: &[u64],
) -> Result<Vec<u64>, OutOfMemory>
    requires can { M.can_fill }
    requires length { length table.now ≡ states question.now }
    requires units { All (λ v. v ≤ unit) table.now }
    ensures { IfOk result (λ next. IsTable question.now (up_step question.now (slice_index table.now)) next.items) }
{
    let mut next = vec![in alloc; 0; question.game().states() as usize]?;
    maker.fill(question, table, &mut next);
    Ok(next)
}

/// Returns the state that rises most from one table to the next, or none if no state rises.
pub fn most_raised(question: &Question, table: &[u64], next: &[u64]) -> Option<u32>
    requires table { length table.now ≡ states question.now }
    requires next { length next.now ≡ states question.now }
    ensures { MatchOption result (IsBelow question.now (slice_index next.now) (slice_index table.now))
        (λ s. RisesMost question.now (slice_index table.now) (slice_index next.now) s) }
{
    let mut most = 0;
    let mut found = None;
    for state in 0..question.game().states() {
        let rise = next[state as usize].saturating_sub(table[state as usize]);
        if rise > most {
            most = rise;
            found = Some(state);
        }
    }
    found
}
