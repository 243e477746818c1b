//! This module says which choices of a state are held to its entry.

ghost use Rattle.std.specs.Prelude.{◌≡◌, ◌<◌, ◌≤◌, ◌↔◌, length, slice_index, All, IsTrue, MatchOption};
ghost use Rattle.game_model.specs.Game.{choices_of};
ghost use Rattle.game_model.specs.Query.{states};
ghost use Rattle.game_model.specs.Limits.{unit};
ghost use Rattle.inductive_check.specs.Held.{IsHeldAt, AllHeld, NoneHeld, IsFirstHeld, IsFirstUnheld};

use fixed_bellman::holds;
use game_model::Question;

/// Returns whether a choice is held to the entry of its state.
pub fn is_held(question: &Question, upper: &[u64], state: u32, choice: u32) -> bool
    requires length { length upper.now ≡ states question.now }
    requires units { All (λ v. v ≤ unit) upper.now }
    requires state { state < states question.now }
    requires choice { choice < length (choices_of question.now.game state) }
    ensures { IsTrue result ↔ IsHeldAt question.now (slice_index upper.now) state choice }
{
    question.invariant();
    holds(&question.row(state), choice, upper, upper[state as usize])
}

/// Returns the first choice of a state that is held.
pub fn first_held(question: &Question, upper: &[u64], state: u32) -> Option<u32>
    requires length { length upper.now ≡ states question.now }
    requires units { All (λ v. v ≤ unit) upper.now }
    requires state { state < states question.now }
    ensures { MatchOption result (NoneHeld question.now (slice_index upper.now) state)
        (IsFirstHeld question.now (slice_index upper.now) state) }
{
    for choice in 0..question.game().choices_of(state) {
        if is_held(question, upper, state, choice) {
            return Some(choice);
        }
    }
    None
}

/// Returns the first choice of a state that is not held.
pub fn first_unheld(question: &Question, upper: &[u64], state: u32) -> Option<u32>
    requires length { length upper.now ≡ states question.now }
    requires units { All (λ v. v ≤ unit) upper.now }
    requires state { state < states question.now }
    ensures { MatchOption result (AllHeld question.now (slice_index upper.now) state)
        (IsFirstUnheld question.now (slice_index upper.now) state) }
{
    for choice in 0..question.game().choices_of(state) {
        if !is_held(question, upper, state, choice) {
            return Some(choice);
        }
    }
    None
}
