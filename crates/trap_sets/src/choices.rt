//! This module tests whether a choice stays in the part of its state.

ghost use Rattle.std.specs.Prelude.{◌≡◌, ◌<◌, false, length, IsTrue};
ghost use Rattle.game_model.specs.Game.{choices_of};
ghost use Rattle.game_model.specs.Query.{states};
ghost use Rattle.trap_sets.specs.inside.Parts.{Stays, Leaves};

use game_model::Question;

/// Returns whether each successor of a choice has the same number as the state of the choice.
pub fn stays(question: &Question, of: &[u32], state: u32, choice: u32) -> bool
    requires state { state < states question.now }
    requires choice { choice < length (choices_of question.now.game state) }
    requires many { length of.now ≡ states question.now }
    ensures yes { IsTrue result → Stays question.now of.now state choice }
    ensures no { result ≡ false → Leaves question.now of.now state choice }
{
    question.invariant();
    let own = of[state as usize];
    for to in question.game().successors(state, choice) {
        if of[*to as usize] != own {
            return false;
        }
    }
    true
}
