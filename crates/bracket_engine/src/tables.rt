//! These functions make the tables of a run.

ghost use Rattle.std.specs.Prelude.{◌≡◌, ℕ, ◌<◌, length, slice_index, slice_index_or, IfOk, None};
ghost use Rattle.game_model.specs.Query.{states};
ghost use Rattle.step_core.specs.Word.{values_of};
ghost use Rattle.bracket_engine.specs.Bracket.{complements_of, AreLesser};
ghost use Rattle.bracket_engine.specs.Choices.{choice_of_word};

use game_model::{Question, Side, UNIT};
use game_outside::OutOfMemory;
use std::alloc::Global;
use step_core::{choice_of, value_of};

/// Returns the unit less each value.
pub fn complements(alloc: Global, values: &[u64]) -> Result<Vec<u64>, OutOfMemory>
    ensures { IfOk result (λ complements. complements.items ≡ complements_of values.now) }
{
    match values
        .iter()
        .map(|value| UNIT.saturating_sub(*value))
        .collect(alloc)
    {
        Ok(complements) => Ok(complements),
        Err(_) => Err(OutOfMemory {}),
    }
}

/// Returns the lesser of two tables: each entry is the lesser of their entries.
pub fn lesser(alloc: Global, one: &[u64], other: &[u64]) -> Result<Vec<u64>, OutOfMemory>
    requires { length other.now ≡ length one.now }
    ensures { IfOk result (λ table. AreLesser one.now other.now table.items) }
{
    let mut table = Vec::with_capacity(alloc, one.len())?;
    for place in 0..one.len() {
        table.push(one[place].min(other[place]))?;
    }
    Ok(table)
}

/// Returns the values of words.
pub fn values_of_words(alloc: Global, words: &[u64]) -> Result<Vec<u64>, OutOfMemory>
    ensures { IfOk result (λ values. values.items ≡ values_of words.now) }
{
    match words.iter().map(|word| value_of(*word)).collect(alloc) {
        Ok(values) => Ok(values),
        Err(_) => Err(OutOfMemory {}),
    }
}

/// Returns the choices of words, for the states where a plan needs them.
pub fn choices_of_words(
    alloc: Global,
    question: &Question,
    words: &[u64],
) -> Result<Vec<Option<u32>>, OutOfMemory>
    requires { length words.now ≡ states question.now }
    ensures as_many { IfOk result (λ choices. length choices.items ≡ states question.now) }
    ensures choices { IfOk result (λ choices. (s : ℕ) → s < states question.now
        → slice_index_or choices.items s None ≡ choice_of_word question.now s (slice_index words.now s)) }
{
    question.invariant();
    let mut choices = Vec::new(alloc);
    for state in 0..question.game().states() {
        let choice = choice_of_state(question, state, words[state as usize]);
        let Ok(()) = choices.push(choice) else {
            return Err(OutOfMemory {});
        };
    }
    Ok(choices)
}

// Returns the choice of a state's word, if a plan needs one.
fn choice_of_state(question: &Question, state: u32, word: u64) -> Option<u32>
    requires { state < states question.now }
    ensures { result ≡ choice_of_word question.now state word }
{
    if question.is_goal(state) || question.is_dead(state) {
        return None;
    }
    match question.side(state) {
        Side::Max => {
            if value_of(word) == 0 {
                None
            } else {
                Some(choice_of(word))
            }
        }
        Side::Min => None,
    }
}
