//! This module makes the upper side of a bracket: the upper table, and the minimiser's replies to it.

ghost use Rattle.std.specs.Prelude.{slice_index, IfOk};
ghost use Rattle.game_model.specs.Dual.{IsZeroSet};
ghost use Rattle.bracket_engine.specs.inside.Sides.{IsUpperSide};
ghost use Rattle.bracket_engine.specs.Stop.{AreUpperParts, IsKeptGuess, IsLeastGuess, IsUpperFrom};

use crate::base::Base;
use crate::parallel_sweep::ParallelSweep;
use crate::stopping::SettlingGuess;
use crate::tables::{complements, lesser};
use game_outside::OutOfMemory;
use inductive_check::replies;
use std::alloc::Global;
use std::thread::Threads;
use upper_guess::{Witnesses, guess_with};

/// This is an upper table with the minimiser's replies to it.
#[derive(Drop)]
pub struct UpperSide {
    /// The table has an upper bound for each state.
    pub table: Vec<u64>,
    /// The minimiser has a choice for each of its states that is neither goal nor dead.
    pub replies: Vec<Option<u32>>,
}

/// Makes the upper table, whose guess is over the base, and the replies to it. The parallel sweep fills the tables of
/// the guess. The swapped values are dropped after they are read.
pub fn upper_side<R: Threads + Sync>(
    parallel: &ParallelSweep<'_, R>,
    alloc: Global,
    base: &Base<'_>,
    swapped_values: Vec<u64>,
    kept: Option<SettlingGuess>,
) -> Result<UpperSide, OutOfMemory>
    requires zero { IsZeroSet base.now.question.now base.now.zero.now }
    requires parts { AreUpperParts base.now.question.now base.now.zero.now swapped_values.items kept }
    ensures { IfOk result (IsUpperSide base.now.question.now base.now.zero.now (slice_index base.now.values.now)
        (slice_index swapped_values.items) kept) }
{
    let table = upper_table(parallel, alloc, base, swapped_values, kept)?;
    let replies = replies(alloc, base.question, &table)?;
    Ok(UpperSide { table, replies })
}

// Returns the least of the unit less the swapped values, of the guess over the base, and of the guess that was kept, if
// any.
fn upper_table<R: Threads + Sync>(
    parallel: &ParallelSweep<'_, R>,
    alloc: Global,
    base: &Base<'_>,
    swapped_values: Vec<u64>,
    kept: Option<SettlingGuess>,
) -> Result<Vec<u64>, OutOfMemory>
    requires zero { IsZeroSet base.now.question.now base.now.zero.now }
    requires parts { AreUpperParts base.now.question.now base.now.zero.now swapped_values.items kept }
    ensures { IfOk result (λ upper. IsUpperFrom base.now.question.now base.now.zero.now
        (slice_index base.now.values.now) (slice_index swapped_values.items) kept upper.items) }
{
    let unlost = complements(alloc, &swapped_values)?;
    drop(swapped_values);
    let guessed = least_guess(parallel, alloc, base, kept)?;
    lesser(alloc, &unlost, &guessed)
}

// Returns the guess over the base, or the lesser of it and the guess that was kept, if any. If both are over the same
// lower bounds, they are the same guess.
fn least_guess<R: Threads + Sync>(
    parallel: &ParallelSweep<'_, R>,
    alloc: Global,
    base: &Base<'_>,
    kept: Option<SettlingGuess>,
) -> Result<Vec<u64>, OutOfMemory>
    requires zero { IsZeroSet base.now.question.now base.now.zero.now }
    requires kept { IsKeptGuess base.now.question.now base.now.zero.now kept }
    ensures { IfOk result (λ least. IsLeastGuess base.now.question.now base.now.zero.now
        (slice_index base.now.values.now) kept least.items) }
{
    let question = base.question;
    let zero = base.zero;
    let values = base.values;
    let Some(
        SettlingGuess {
            lower: over,
            guess: earlier,
        },
    ) = kept
    else {
        return guess_with(
            parallel,
            alloc,
            question,
            zero,
            values,
            &mut Witnesses::none(),
        );
    };
    if over.as_slice() == values {
        return Ok(earlier);
    }
    let guessed = guess_with(
        parallel,
        alloc,
        question,
        zero,
        values,
        &mut Witnesses::none(),
    )?;
    lesser(alloc, &guessed, &earlier)
}
