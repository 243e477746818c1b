//! This module says which states may not join, and which choices attract no state.

ghost use Rattle.std.specs.Prelude.{◌≡◌, ◌<◌, length};
ghost use Rattle.game_model.specs.Game.{choices_of, choice_of};
ghost use Rattle.game_model.specs.Query.{Query, states};
ghost use Rattle.attractors.specs.Attractor.{ExcludedSets, dead_excluded};

use game_model::Question;

/// A type with this trait excludes states and choices of a question.
pub trait Excluded {
    /// It can be used for this question.
    ghost fits: { Self → Query → Type 0 };

    /// It excludes these states and choices.
    ghost excluded: { Self → Query → ExcludedSets };

    /// Returns whether a state is excluded.
    fn excludes_state(&self, question: &Question, state: u32) -> bool
        requires fits { fits self.now question.now }
        requires state { state < states question.now }
        ensures { result ≡ (excluded self.now question.now).states state };

    /// Returns whether a choice of a state is excluded.
    fn excludes_choice(&self, question: &Question, state: u32, choice: u32) -> bool
        requires fits { fits self.now question.now }
        requires state { state < states question.now }
        requires choice { choice < length (choices_of question.now.game state) }
        ensures { result ≡ (excluded self.now question.now).choices (choice_of question.now.game state choice) };
}

/// This excludes the dead states, and no choice.
#[derive(Drop)]
pub struct ExcludedDead {}

impl Excluded for ExcludedDead {
    ghost fits = { λ _ _. Unit {0} };

    ghost excluded = { λ _ q. dead_excluded q };

    fn excludes_state(&self, question: &Question, state: u32) -> bool {
        question.is_dead(state)
    }

    fn excludes_choice(&self, _question: &Question, _state: u32, _choice: u32) -> bool {
        false
    }
}
