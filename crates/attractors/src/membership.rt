//! This module says whether choices have a successor in a set of states.

ghost use Rattle.std.specs.Prelude.{◌≡◌, ℕ, ◌<◌, ◌≤◌, true, false, not, length, map, IfOk};
ghost use Rattle.std.specs.List.{list_any};
ghost use Rattle.game_model.specs.Game.{choices_of, choice_of};
ghost use Rattle.game_model.specs.Query.{states};
ghost use Rattle.attractors.specs.Attractor.{meets, serves};

use crate::excluded::Excluded;
use game_model::Question;
use std::alloc::{AllocError, Global};

/// Returns the first choice of a state, from this one on, that is excluded or has no successor in the set. If there is
/// none, it returns the number of choices.
pub fn first_unserved<S: Excluded>(
    question: &Question,
    excluded: &S,
    set: &[bool],
    state: u32,
    from: u32,
) -> u32
    requires fits { S.fits excluded.now question.now }
    requires state { state < states question.now }
    requires from { from ≤ length (choices_of question.now.game state) }
    requires many { length set.now ≡ states question.now }
    ensures from { from ≤ result }
    ensures within { result ≤ length (choices_of question.now.game state) }
    ensures before { (c : ℕ) → from ≤ c → c < result
        → serves (S.excluded excluded.now question.now) set.now (choice_of question.now.game state c) ≡ true }
    ensures first { result < length (choices_of question.now.game state)
        → serves (S.excluded excluded.now question.now) set.now (choice_of question.now.game state result) ≡ false }
{
    let count = question.game().choices_of(state);
    for choice in from..count {
        if !serves(question, excluded, set, state, choice) {
            return choice;
        }
    }
    count
}

/// Returns whether some choice of a state serves.
pub fn some_serves<S: Excluded>(question: &Question, excluded: &S, set: &[bool], state: u32) -> bool
    requires fits { S.fits excluded.now question.now }
    requires state { state < states question.now }
    requires many { length set.now ≡ states question.now }
    ensures { result
        ≡ list_any (serves (S.excluded excluded.now question.now) set.now) (choices_of question.now.game state) }
{
    for choice in 0..question.game().choices_of(state) {
        if serves(question, excluded, set, state, choice) {
            return true;
        }
    }
    false
}

/// Returns whether the choice is not excluded and has a successor in the set.
pub fn serves<S: Excluded>(
    question: &Question,
    excluded: &S,
    set: &[bool],
    state: u32,
    choice: u32,
) -> bool
    requires fits { S.fits excluded.now question.now }
    requires state { state < states question.now }
    requires choice { choice < length (choices_of question.now.game state) }
    requires many { length set.now ≡ states question.now }
    ensures { result
        ≡ serves (S.excluded excluded.now question.now) set.now (choice_of question.now.game state choice) }
{
    !excluded.excludes_choice(question, state, choice) && meets(question, set, state, choice)
}

/// Returns whether some successor of the choice is in the set.
pub fn meets(question: &Question, set: &[bool], state: u32, choice: u32) -> bool
    requires state { state < states question.now }
    requires choice { choice < length (choices_of question.now.game state) }
    requires many { length set.now ≡ states question.now }
    ensures { result ≡ meets set.now (choice_of question.now.game state choice) }
{
    question.invariant();
    for to in question.game().successors(state, choice) {
        if set[*to as usize] {
            return true;
        }
    }
    false
}

/// Says for each state whether it is not in the set.
pub fn complement(alloc: Global, set: &[bool]) -> Result<Vec<bool>, AllocError>
    ensures { IfOk result (λ others. others.items ≡ map not set.now) }
{
    set.iter()
        .map(|member| !*member)
        .collect::<Vec<bool>>(alloc)
}
