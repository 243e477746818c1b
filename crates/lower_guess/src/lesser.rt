//! The lesser of a table and of its down step is found at marked states: a state without a mark does not fall.

ghost use Rattle.std.specs.Prelude.{◌≡◌, ℕ, ◌<◌, ◌≤◌, ◌↔◌, length, slice_index, All, IfOk, IsTrue};
ghost use Rattle.game_model.specs.Query.{states};
ghost use Rattle.game_model.specs.Limits.{unit};
ghost use Rattle.predecessors.specs.Lists.{ArePredecessors};
ghost use Rattle.game_model.specs.Tables.{IsTable};
ghost use Rattle.lower_guess.specs.LowerGuess.{lesser_step};
ghost use Rattle.lower_guess.specs.inside.Marks.{AreQuiet, AreMarkedFor};

use fixed_bellman::{down_state, is_given};
use game_model::{Game, Question};
use game_outside::OutOfMemory;
use predecessors::{Predecessors, mark_predecessors};
use std::alloc::Global;

/// Returns the lesser of a table and of its down step, at each state.
pub fn lesser_table(
    alloc: Global,
    question: &Question,
    table: &[u64],
    marks: &[bool],
) -> Result<Vec<u64>, OutOfMemory>
    requires length { length table.now ≡ states question.now }
    requires units { All (λ v. v ≤ unit) table.now }
    requires marks { length marks.now ≡ states question.now }
    requires quiet { AreQuiet question.now marks.now (slice_index table.now) }
    ensures { IfOk result (λ next. IsTable question.now (lesser_step question.now (slice_index table.now)) next.items) }
{
    let states = question.game().states();
    let mut next = Vec::with_capacity(alloc, states as usize)?;
    for state in 0..states {
        next.push(lesser_entry(question, table, marks, state))?;
    }
    Ok(next)
}

/// Returns the lesser of the two at a state.
fn lesser_entry(question: &Question, table: &[u64], marks: &[bool], state: u32) -> u64
    requires state { state < states question.now }
    requires length { length table.now ≡ states question.now }
    requires units { All (λ v. v ≤ unit) table.now }
    requires marks { length marks.now ≡ states question.now }
    requires quiet { AreQuiet question.now marks.now (slice_index table.now) }
    ensures value { result ≡ lesser_step question.now (slice_index table.now) state }
    ensures units { result ≤ unit }
{
    let value = table[state as usize];
    if !marks[state as usize] || is_given(question, state, table) {
        return value;
    }
    down_state(question, state, table).0
}

/// Returns whether two tables have the same entries.
pub fn is_same(one: &[u64], other: &[u64]) -> bool
    requires { length one.now ≡ length other.now }
    ensures { IsTrue result ↔ ((s : ℕ) → s < length one.now → slice_index one.now s ≡ slice_index other.now s) }
{
    for state in 0..one.len() {
        if one[state] != other[state] {
            return false;
        }
    }
    true
}

/// Marks the predecessors of the states whose entries fell, and no other states.
pub fn mark_again(
    game: &Game,
    predecessors: &Predecessors,
    table: &[u64],
    next: &[u64],
    marks: &mut [bool],
)
    requires predecessors { ArePredecessors game.now predecessors.now }
    requires table { length table.now ≡ length game.now }
    requires next { length next.now ≡ length game.now }
    requires marks { length marks.old ≡ length game.now }
    ensures marks { length marks.new ≡ length game.now }
    ensures marked { AreMarkedFor game.now (slice_index table.now) (slice_index next.now) marks.new }
{
    game.invariant();
    marks.fill(false);
    for state in 0..game.states() {
        if next[state as usize] < table[state as usize] {
            mark_predecessors(game, predecessors, state, marks);
        }
    }
}
