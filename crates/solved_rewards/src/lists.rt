//! This module makes the lists of a certificate, one by one.

ghost use Rattle.std.specs.Prelude.{◌≡◌, ◌<◌, ◌≤◌, false, length, slice_index_or, IfOk};
ghost use Rattle.game_model.specs.Limits.{unit};
ghost use Rattle.game_model.specs.Query.{states};
ghost use Rattle.game_model.specs.Tables.{IsTable};
ghost use Rattle.solved_rewards.specs.Values.{value_of};
ghost use Rattle.solved_rewards.specs.inside.Merged.{AreBounded};

use game_model::{Marks, Question, UNIT};
use game_outside::OutOfMemory;
use std::alloc::Global;

/// Returns marks as a list.
pub fn list_of(alloc: Global, question: &Question, marks: &Marks) -> Result<Vec<bool>, OutOfMemory>
    requires { length marks.now ≡ states question.now }
    ensures { IfOk result (λ list. list.items ≡ marks.now) }
{
    let states = question.game().states();
    let mut list = Vec::with_capacity(alloc, states as usize)?;
    for state in 0..states {
        list.push(marks.has(state))?;
    }
    Ok(list)
}

/// Returns the states that have an upper value: the goals and those that were found.
pub fn bounded_list(
    alloc: Global,
    question: &Question,
    found: &[bool],
) -> Result<Vec<bool>, OutOfMemory>
    ensures { IfOk result (λ list. AreBounded question.now found.now list.items) }
{
    let list = (0..question.game().states())
        .map(|state| question.is_goal(state) || is_marked(found, state))
        .collect(alloc)?;
    Ok(list)
}

/// Returns whether a state is marked in a list. A state after its end is not.
fn is_marked(list: &[bool], state: u32) -> bool
    ensures { result ≡ slice_index_or list.now state false }
{
    match list.get(state as usize) {
        Some(mark) => *mark,
        None => false,
    }
}

/// Returns the values that a candidate gives where they are numbers.
pub fn value_list(
    alloc: Global,
    question: &Question,
    numbers: &[bool],
    candidate: &[u64],
) -> Result<Vec<u64>, OutOfMemory>
    requires { length numbers.now ≡ states question.now }
    ensures { IfOk result (λ list. IsTable question.now (value_of question.now numbers.now candidate.now) list.items) }
{
    let list = (0..question.game().states())
        .map(|state| value_at(question, numbers, candidate, state))
        .collect(alloc)?;
    Ok(list)
}

/// Returns the value of a state.
fn value_at(question: &Question, numbers: &[bool], candidate: &[u64], state: u32) -> u64
    requires numbers { length numbers.now ≡ states question.now }
    requires state { state < states question.now }
    ensures value { result ≡ value_of question.now numbers.now candidate.now state }
    ensures units { result ≤ unit }
{
    if question.is_goal(state) || !numbers[state as usize] {
        return 0;
    }
    match candidate.get(state as usize) {
        Some(value) => (*value).min(UNIT),
        None => 0,
    }
}
