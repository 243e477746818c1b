//! This module holds the choices of a game under way that are finished because the transitions come in the order of
//! their choices.

ghost use Rattle.std.specs.Prelude.{◌≡◌, ◌<◌, ◌≤◌, ◌+◌, ℕ, List};
ghost use Rattle.transition_lines.specs.declared.line.Transition.{Transition};
ghost use Rattle.transition_lines.specs.Limits.{most_stated_choices};
ghost use Rattle.game_outside.specs.Answers.{AnswersOrWants};
ghost use Rattle.transition_lines.specs.Faults.{IsOutOfMemory};
ghost use Rattle.transition_lines.specs.Choices.{transitions_game};
ghost use Rattle.transition_lines.specs.Order.{place_of};
ghost use Rattle.tra_reader.specs.inside.GrowingGames.{AreFinished, place_behind, AddsChoice, EndsStates, EndsBefore, GoesTo, IsReady, IfBuilds, IsAsStated};

use crate::build_state::BuildState;
use distributions::Part;
use game_model::{Edge, Game};
use std::alloc::Global;
use transition_lines::{TraCause, TraFault};

/// The finished choices are all that come before one choice of one state.
#[derive(Drop)]
pub struct FinishedChoices {
    pub state: u32,
    pub choice: u32,
    pub count: u32,
    pub build_state: BuildState,
}

impl FinishedChoices {
    /// Finishes one more choice, which has these parts. The list of edges is room to make it in.
    fn end_choice(&mut self, alloc: Global, room: &mut Vec<Edge>, parts: &[Part])
        requires { self.old.choice < most_stated_choices }
        ensures state { self.new.state ≡ self.old.state }
        ensures choice { self.new.choice ≡ self.old.choice + 1 }
        ensures made { AddsChoice parts.now self.old self.new }
    {
        self.build_state
            .push(alloc, room, parts, self.state, self.choice);
        self.choice += 1;
        match self.count.checked_add(1) {
            Some(count) => self.count = count,
            None => self.build_state = BuildState::OutOfMemory,
        }
    }

    /// Finishes the states before this one.
    fn end_states(&mut self, alloc: Global, to: u32)
        requires { self.old.state ≤ to }
        ensures state { self.new.state ≡ to }
        ensures place { (place : ℕ) → place_behind self.old ≤ place → place_of to 0 ≤ place
            → place_behind self.new ≤ place }
        ensures made { EndsStates to self.old self.new }
    {
        while self.state < to {
            self.build_state.end_state(alloc, self.state, self.choice);
            self.state += 1;
            self.choice = 0;
        }
    }

    /// Finishes all choices before this state. The choice under way has these parts, or no part if nothing has begun.
    pub fn end_before(&mut self, alloc: Global, room: &mut Vec<Edge>, parts: &[Part], to: u32)
        requires low { self.old.choice < most_stated_choices }
        requires ahead { self.old.state ≤ to }
        ensures state { self.new.state ≡ to }
        ensures place { (place : ℕ) → place_behind self.old < place → place_of to 0 ≤ place
            → place_behind self.new ≤ place }
        ensures made { EndsBefore parts.now to self.old self.new }
    {
        if !parts.is_empty() {
            self.end_choice(alloc, room, parts);
        }
        self.end_states(alloc, to);
    }

    /// Makes this choice the next one. If that passes a choice over, that choice is missing.
    pub fn go_to(&mut self, choice: u32)
        requires { self.old.choice ≤ choice }
        ensures state { self.new.state ≡ self.old.state }
        ensures choice { self.new.choice ≡ choice }
        ensures made { GoesTo choice self.old self.new }
    {
        if self.choice == choice {
            return;
        }
        self.build_state.note_gap(self.state, self.choice);
        self.choice = choice;
    }

    /// Makes the game of the finished choices, which are those of all states, or gives the first fault of the whole.
    pub fn finish(self, stated: Option<u32>) -> Result<Game, TraFault>
        requires { IfBuilds self.build_state IsReady }
        ensures { (n : ℕ) (transitions : List Transition) → self.state ≡ n → self.choice ≡ 0
            → AreFinished n transitions self
            → AnswersOrWants IsOutOfMemory (λ g. g) result (transitions_game transitions n stated) }
    {
        let otherwise = stated_otherwise(stated, self.count);
        match self.build_state {
            BuildState::OutOfMemory => Err(TraFault::of_all(TraCause::OutOfMemory)),
            BuildState::Gap { state, choice } => {
                Err(TraFault::of_all(TraCause::ChoiceGap { state, choice }))
            }
            BuildState::Crowded { state } => Err(TraFault::of_all(TraCause::TooManyChoices {
                state,
            })),
            BuildState::Faulty(fault) => Err(otherwise.unwrap_or(fault)),
            BuildState::Builds(builder) => match otherwise {
                Some(fault) => Err(fault),
                None => Ok(builder.finish()),
            },
        }
    }
}

// Returns the fault if the choices are not as many as stated.
fn stated_otherwise(stated: Option<u32>, read: u32) -> Option<TraFault>
    ensures { IsAsStated stated read result }
{
    let stated = stated?;
    if read == stated {
        return None;
    }
    Some(TraFault::of_all(TraCause::ChoiceCount { read, stated }))
}
