//! This module takes the down step of a table.

ghost use Rattle.std.specs.Prelude.{◌≡◌, ◌<◌, ◌≤◌, ◌⊎◌, length, slice_index, All, MatchOption};
ghost use Rattle.game_model.specs.Query.{states};
ghost use Rattle.game_model.specs.Limits.{unit};
ghost use Rattle.game_model.specs.Rounded.{DownChoice, down_step};
ghost use Rattle.fixed_bellman.specs.Given.{IsFree};
ghost use Rattle.fixed_bellman.specs.Raised.{Raises};

use crate::above::step_above;
use crate::values::Entries;
use game_model::{Question, UNIT};

/// Returns the down step of a table at a state. At a Max state that is neither goal nor dead it also returns the first
/// choice that has this value. Elsewhere the choice is 0.
pub fn down_state(question: &Question, state: u32, table: &[u64]) -> (u64, u32)
    requires state { state < states question.now }
    requires length { length table.now ≡ states question.now }
    requires units { All (λ v. v ≤ unit) table.now }
    ensures value { result.0 ≡ down_step question.now (slice_index table.now) state }
    ensures units { result.0 ≤ unit }
    ensures first { DownChoice question.now (slice_index table.now) state result.0 result.1 }
{
    if question.is_goal(state) {
        return (UNIT, 0);
    }
    if question.is_dead(state) {
        return (0, 0);
    }
    table_step_above(question, state, table, 0)
}

/// Returns what [`down_state`] returns, if its value is above the entry of the state. A state that does not rise costs
/// a sum and a comparison for each choice, and no division.
pub fn raised_state(question: &Question, state: u32, table: &[u64]) -> Option<(u64, u32)>
    requires state { state < states question.now }
    requires length { length table.now ≡ states question.now }
    requires units { All (λ v. v ≤ unit) table.now }
    ensures { MatchOption result (down_step question.now (slice_index table.now) state ≤ slice_index table.now state)
        (λ r. Raises question.now (slice_index table.now) state r.0 r.1) }
{
    let entry = table[state as usize];
    if question.is_goal(state) {
        return raised_goal(entry);
    }
    if question.is_dead(state) {
        return None;
    }
    let (value, choice) = table_step_above(question, state, table, entry);
    if entry < value {
        Some((value, choice))
    } else {
        None
    }
}

/// Takes the step of [`step_above`] over a table.
fn table_step_above(question: &Question, state: u32, table: &[u64], floor: u64) -> (u64, u32)
    requires state { state < states question.now }
    requires free { IsFree question.now state }
    requires length { length table.now ≡ states question.now }
    requires units { All (λ v. v ≤ unit) table.now }
    requires floor { floor ≤ unit }
    ensures units { result.0 ≤ unit }
    ensures low { down_step question.now (slice_index table.now) state ≤ result.0 }
    ensures exact { (floor < result.0) ⊎ (floor ≡ 0)
        → (result.0 ≡ down_step question.now (slice_index table.now) state)
        × DownChoice question.now (slice_index table.now) state result.0 result.1 }
{
    question.invariant();
    let entries = Entries::new(table);
    step_above(question, &entries, &mut (), state, floor)
}

/// Returns the step of a goal if it is above the entry.
fn raised_goal(entry: u64) -> Option<(u64, u32)>
    requires { entry ≤ unit }
    ensures { MatchOption result (unit ≤ entry) (λ r. (r.0 ≡ unit) × (r.1 ≡ 0) × (entry < r.0)) }
{
    if entry < UNIT { Some((UNIT, 0)) } else { None }
}
