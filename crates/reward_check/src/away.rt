//! This module says when a choice keeps away from the goals.

ghost use Rattle.std.specs.Prelude.{◌≡◌, ◌<◌, ◌↔◌, length, slice_index, IsTrue};
ghost use Rattle.game_model.specs.Game.{choices_of, choice_of};
ghost use Rattle.game_model.specs.Query.{states};
ghost use Rattle.expected_rewards.specs.Tables.{Sinks, Lingers};

use game_model::Question;

/// Returns whether some successor of a choice is not finite and has a smaller rank.
pub fn sinks(question: &Question, finite: &[bool], ranks: &[u32], state: u32, choice: u32) -> bool
    requires finite { length finite.now ≡ states question.now }
    requires ranks { length ranks.now ≡ states question.now }
    requires state { state < states question.now }
    requires choice { choice < length (choices_of question.now.game state) }
    ensures { IsTrue result ↔ Sinks finite.now (slice_index ranks.now) state
        (choice_of question.now.game state choice) }
{
    question.invariant();
    for place in 0..question.game().edge_count(state, choice) {
        let to = question.game().edge(state, choice, place).to;
        if !finite[to as usize] && ranks[to as usize] < ranks[state as usize] {
            return true;
        }
    }
    false
}

/// Returns whether all successors of a choice are not finite and have ranks that are no greater.
pub fn lingers(question: &Question, finite: &[bool], ranks: &[u32], state: u32, choice: u32) -> bool
    requires finite { length finite.now ≡ states question.now }
    requires ranks { length ranks.now ≡ states question.now }
    requires state { state < states question.now }
    requires choice { choice < length (choices_of question.now.game state) }
    ensures { IsTrue result ↔ Lingers finite.now (slice_index ranks.now) state
        (choice_of question.now.game state choice) }
{
    question.invariant();
    for place in 0..question.game().edge_count(state, choice) {
        let to = question.game().edge(state, choice, place).to;
        if finite[to as usize] || ranks[state as usize] < ranks[to as usize] {
            return false;
        }
    }
    true
}
