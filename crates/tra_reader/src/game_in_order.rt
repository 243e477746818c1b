//! This module makes a game of transitions that come in the order of their choices.

ghost use Rattle.std.specs.Prelude.{◌≡◌, ◌<◌, ◌≤◌, ◌↔◌, ◌∷◌, ◌++◌, ℕ, List, [], length, IfOk, OnOk, IsTrue};
ghost use Rattle.game_model.specs.Limits.{most_states};
ghost use Rattle.game_outside.specs.Answers.{AnswersOrWants};
ghost use Rattle.transition_lines.specs.Faults.{IsOutOfMemory};
ghost use Rattle.transition_lines.specs.Choices.{transitions_game};
ghost use Rattle.transition_lines.specs.Order.{IsWithin, transition_place};
ghost use Rattle.tra_reader.specs.inside.GrowingGames.{place_under_way, HoldsInOrder};

use crate::build_state::BuildState;
use crate::finished_choices::FinishedChoices;
use distributions::Part;
use game_model::{Edge, Game, GameBuilder};
use std::alloc::{AllocError, Global};
use std::marker::Model;
use transition_lines::{TraFault, Transition, place_at};

/// A game under way is made of transitions that come in the order of their choices. It keeps only those of the choice
/// under way, as its parts, and room for the edges of a choice.
#[derive(Drop)]
pub struct GameInOrder {
    states: u32,
    finished: FinishedChoices,
    parts: Vec<Part>,
    room: Vec<Edge>,
}

impl Model for GameInOrder {
    ghost use Rattle.tra_reader.specs.inside.GrowingGames.{Growing};

    ghost Value = { Growing };

    ghost use Rattle.tra_reader.specs.inside.OfGrowing.{growing_of, IsGrowing};

    ghost view = { growing_of };

    ghost invariant = { IsGrowing };
}

impl GameInOrder {
    /// Starts a game of `states` states without a transition.
    pub fn new(alloc: Global, states: u32) -> Result<GameInOrder, AllocError>
        requires some { 0 < states }
        requires few { states ≤ most_states }
        ensures holds { IfOk result (λ game. HoldsInOrder game states []) }
        ensures place { IfOk result (λ game. place_under_way game ≡ 0) }
    {
        let Ok(builder) = GameBuilder::new(alloc) else {
            return Err(AllocError {});
        };
        let finished = FinishedChoices {
            state: 0,
            choice: 0,
            count: 0,
            build_state: BuildState::Builds(builder),
        };
        Ok(GameInOrder {
            states,
            finished,
            parts: Vec::new(alloc),
            room: Vec::new(alloc),
        })
    }

    /// Returns the place of the choice under way, and 0 before the first transition.
    pub fn place(&self) -> u64
        ensures { result ≡ place_under_way self.now }
    {
        place_at(self.finished.state, self.finished.choice)
    }

    /// Returns whether a transition was added.
    pub fn has_begun(&self) -> bool
        ensures { IsTrue result ↔ (0 < length self.now.parts) }
    {
        !self.parts.is_empty()
    }

    /// Adds a transition that is not before the choice under way. The only error is that memory ran out. If memory runs
    /// out for a whole choice, `finish` says so.
    #[inline(always)]
    pub fn add(&mut self, alloc: Global, transition: &Transition) -> Result<(), AllocError>
        requires within { IsWithin self.old.states transition.now }
        requires order { place_under_way self.old ≤ transition_place transition.now }
        ensures holds { OnOk result ((n : ℕ) (before : List Transition) → HoldsInOrder self.old n before
            → HoldsInOrder self.new n (before ++ transition.now ∷ [])) }
        ensures states { self.new.states ≡ self.old.states }
    {
        if transition.source != self.finished.state || transition.choice != self.finished.choice {
            return self.begin(alloc, transition);
        }
        self.parts.push(transition.part())?;
        Ok(())
    }

    // Adds the first transition of a choice behind the one under way.
    fn begin(&mut self, alloc: Global, transition: &Transition) -> Result<(), AllocError>
        requires within { IsWithin self.old.states transition.now }
        requires order { place_under_way self.old < transition_place transition.now }
        ensures holds { OnOk result ((n : ℕ) (before : List Transition) → HoldsInOrder self.old n before
            → HoldsInOrder self.new n (before ++ transition.now ∷ [])) }
        ensures states { self.new.states ≡ self.old.states }
    {
        self.finished
            .end_before(alloc, &mut self.room, &self.parts, transition.source);
        self.finished.go_to(transition.choice);
        self.parts.clear();
        if self.parts.push(transition.part()).is_err() {
            self.finished.build_state = BuildState::OutOfMemory;
            return Err(AllocError {});
        }
        Ok(())
    }

    /// Makes the game of all transitions that were added, or gives the first fault of the whole.
    pub fn finish(self, alloc: Global, stated: Option<u32>) -> Result<Game, TraFault>
        ensures { (n : ℕ) (all : List Transition) → HoldsInOrder self n all
            → AnswersOrWants IsOutOfMemory (λ g. g) result (transitions_game all n stated) }
    {
        let mut finished = self.finished;
        let mut room = self.room;
        finished.end_before(alloc, &mut room, &self.parts, self.states);
        finished.finish(stated)
    }
}
