//! This module tests whether components are in the order of play.

ghost use Rattle.std.specs.Prelude.{◌≡◌, ◌<◌, IsTrue, length};
ghost use Rattle.game_model.specs.Game.{choices_of, choice_of};
ghost use Rattle.game_model.specs.Query.{states};
ghost use Rattle.components.specs.Order.{LeadsBack, StateLeadsBack, IsPlayOrder};

use crate::keeps::Keeps;
use game_model::Question;

/// Returns whether each successor by a kept choice is in the component of its state or in an earlier one.
pub fn is_play_order<K: Keeps>(question: &Question, kept: &K, component: &[u32]) -> bool
    requires fits { K.fits kept.now question.now }
    requires many { length component.now ≡ states question.now }
    ensures { IsTrue result → IsPlayOrder question.now (K.kept kept.now question.now) component.now }
{
    (0..question.game().states()).all(|state| state_leads_back(question, kept, component, state))
}

/// Returns the same for the kept choices of one state.
fn state_leads_back<K: Keeps>(question: &Question, kept: &K, component: &[u32], state: u32) -> bool
    requires fits { K.fits kept.now question.now }
    requires many { length component.now ≡ states question.now }
    requires state { state < states question.now }
    ensures { IsTrue result → StateLeadsBack question.now (K.kept kept.now question.now) component.now state
        (length (choices_of question.now.game state)) }
{
    for choice in 0..question.game().choices_of(state) {
        if kept.keeps(question, state, choice) && !leads_back(question, component, state, choice) {
            return false;
        }
    }
    true
}

/// Returns the same for one choice.
fn leads_back(question: &Question, component: &[u32], state: u32, choice: u32) -> bool
    requires many { length component.now ≡ states question.now }
    requires state { state < states question.now }
    requires choice { choice < length (choices_of question.now.game state) }
    ensures { IsTrue result → LeadsBack question.now component.now state choice
        (length (choice_of question.now.game state choice).edges) }
{
    question.invariant();
    let own = component[state as usize];
    for to in question.game().successors(state, choice) {
        if component[*to as usize] > own {
            return false;
        }
    }
    true
}
