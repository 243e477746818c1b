//! This module makes the tables that candidates give.

ghost use Rattle.std.specs.Prelude.{◌≡◌, ◌<◌, ◌≤◌, [], length, IfOk};
ghost use Rattle.game_model.specs.Query.{states};
ghost use Rattle.game_model.specs.Limits.{unit};
ghost use Rattle.game_model.specs.Tables.{IsTable};
ghost use Rattle.solved_plans.specs.Bounds.{lower_bound, upper_bound, counted};

use game_model::{Marks, Question, UNIT};
use game_outside::OutOfMemory;
use std::alloc::Global;

/// Returns a candidate, or an empty one if it has another number of entries than there are states.
pub fn counted_of<'a>(question: &Question, candidate: &'a [u64]) -> &'a [u64]
    ensures { result.now ≡ counted (states question.now) candidate.now }
{
    question.invariant();
    if candidate.len() == question.game().states() as usize {
        candidate
    } else {
        &[]
    }
}

/// Returns the lower table of a candidate.
pub fn lower_table(
    alloc: Global,
    question: &Question,
    sure: &Marks,
    zero: &Marks,
    candidate: &[u64],
) -> Result<Vec<u64>, OutOfMemory>
    requires sure { length sure.now ≡ states question.now }
    requires zero { length zero.now ≡ states question.now }
    ensures { IfOk result (λ table. IsTable question.now (lower_bound sure.now zero.now candidate.now) table.items) }
{
    let table = (0..question.game().states())
        .map(|state| lower_entry(sure, zero, candidate, state))
        .collect(alloc)?;
    Ok(table)
}

// Returns the entry of a state.
fn lower_entry(sure: &Marks, zero: &Marks, candidate: &[u64], state: u32) -> u64
    requires sure { state < length sure.now }
    requires zero { state < length zero.now }
    ensures value { result ≡ lower_bound sure.now zero.now candidate.now state }
    ensures units { result ≤ unit }
{
    if sure.has(state) {
        return UNIT;
    }
    if zero.has(state) {
        return 0;
    }
    match candidate.get(state as usize) {
        Some(value) => (*value).min(UNIT - 1),
        None => 0,
    }
}

/// Returns the upper table of a candidate.
pub fn upper_table(
    alloc: Global,
    question: &Question,
    sure: &Marks,
    zero: &Marks,
    candidate: &[u64],
) -> Result<Vec<u64>, OutOfMemory>
    requires sure { length sure.now ≡ states question.now }
    requires zero { length zero.now ≡ states question.now }
    ensures { IfOk result (λ table. IsTable question.now (upper_bound sure.now zero.now candidate.now) table.items) }
{
    let table = (0..question.game().states())
        .map(|state| upper_entry(sure, zero, candidate, state))
        .collect(alloc)?;
    Ok(table)
}

// Returns the entry of a state.
fn upper_entry(sure: &Marks, zero: &Marks, candidate: &[u64], state: u32) -> u64
    requires sure { state < length sure.now }
    requires zero { state < length zero.now }
    ensures value { result ≡ upper_bound sure.now zero.now candidate.now state }
    ensures units { result ≤ unit }
{
    if zero.has(state) {
        return 0;
    }
    if sure.has(state) {
        return UNIT;
    }
    match candidate.get(state as usize) {
        Some(value) => (*value).min(UNIT).max(1),
        None => UNIT,
    }
}
