//! This module tests the successors of a choice.

ghost use Rattle.std.specs.Prelude.{◌≡◌, ◌<◌, ◌↔◌, false, length, slice_index, IsTrue};
ghost use Rattle.game_model.specs.Game.{choices_of, choice_of};
ghost use Rattle.game_model.specs.Query.{states};
ghost use Rattle.expected_rewards.specs.Tables.{StaysFinite, LeadsAway};
ghost use Rattle.reward_check.specs.Parts.{LeadsDown};

use game_model::Question;

/// Returns whether some successor of a choice is not marked.
pub fn leads_away(question: &Question, marks: &[bool], state: u32, choice: u32) -> bool
    requires marks { length marks.now ≡ states question.now }
    requires state { state < states question.now }
    requires choice { choice < length (choices_of question.now.game state) }
    ensures yes { IsTrue result → LeadsAway marks.now (choice_of question.now.game state choice) }
    ensures no { result ≡ false → StaysFinite marks.now (choice_of question.now.game state choice) }
{
    question.invariant();
    for place in 0..question.game().edge_count(state, choice) {
        let to = question.game().edge(state, choice, place).to;
        if !marks[to as usize] {
            return true;
        }
    }
    false
}

/// Returns whether some successor of a choice has a smaller rank.
pub fn leads_down(question: &Question, ranks: &[u32], state: u32, choice: u32) -> bool
    requires ranks { length ranks.now ≡ states question.now }
    requires state { state < states question.now }
    requires choice { choice < length (choices_of question.now.game state) }
    ensures { IsTrue result ↔ LeadsDown (slice_index ranks.now) state (choice_of question.now.game state choice) }
{
    question.invariant();
    for place in 0..question.game().edge_count(state, choice) {
        let to = question.game().edge(state, choice, place).to;
        if ranks[to as usize] < ranks[state as usize] {
            return true;
        }
    }
    false
}
