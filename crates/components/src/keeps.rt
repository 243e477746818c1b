//! This module says which choices are kept.

ghost use Rattle.std.specs.Prelude.{◌≡◌, ℕ, ◌<◌, Bool, true, length};
ghost use Rattle.game_model.specs.Game.{choices_of, choices_below};
ghost use Rattle.game_model.specs.Query.{Query, states};
ghost use Rattle.predecessors.specs.Flags.{flag};

use game_model::Question;
use predecessors::ChoiceFlags;

/// A type with this trait says which choices of a question are kept.
pub trait Keeps {
    /// It has to fit the question.
    ghost fits: { Self → Query → Type 0 };

    /// It keeps these choices. Each is given by its state and its place among the state's choices.
    ghost kept: { Self → Query → ℕ → ℕ → Bool };

    /// Returns whether a choice of a state is kept.
    fn keeps(&self, question: &Question, state: u32, choice: u32) -> bool
        requires fits { fits self.now question.now }
        requires state { state < states question.now }
        requires choice { choice < length (choices_of question.now.game state) }
        ensures { result ≡ kept self.now question.now state choice };
}

/// This type keeps every choice.
#[derive(Drop)]
pub struct KeepsAll {}

impl Keeps for KeepsAll {
    ghost fits = { λ _ _. Unit {0} };

    ghost kept = { λ _ _ _ _. true };

    fn keeps(&self, _question: &Question, _state: u32, _choice: u32) -> bool {
        true
    }
}

impl Keeps for ChoiceFlags {
    ghost fits = { λ flags q. length flags ≡ choices_below q.game (length q.game) };

    ghost kept = { λ flags q s c. flag q.game flags s c };

    fn keeps(&self, question: &Question, state: u32, choice: u32) -> bool {
        self.has(question.game(), state, choice)
    }
}
