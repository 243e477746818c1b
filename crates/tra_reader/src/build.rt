//! This module builds the game when all transitions are read.

ghost use Rattle.std.specs.List.{All};
ghost use Rattle.game_outside.specs.Answers.{AnswersOrWants};
ghost use Rattle.transition_lines.specs.Faults.{IsOutOfMemory};
ghost use Rattle.transition_lines.specs.Choices.{transitions_game};
ghost use Rattle.transition_lines.specs.Order.{IsWithin, Rises, transition_place};
ghost use Rattle.transition_lines.specs.Answers.{IsAccepted};

use crate::game_in_order::GameInOrder;
use crate::order::put_in_order;
use game_model::Game;
use std::alloc::Global;
use transition_lines::{Header, TraFault, Transition};

/// Builds the game of these transitions, in whatever order they come.
pub fn build(alloc: Global, transitions: Vec<Transition>, header: &Header) -> Result<Game, TraFault>
    requires accepted { IsAccepted header.now }
    requires within { All (IsWithin header.now.states) transitions.items }
    ensures { AnswersOrWants IsOutOfMemory (λ g. g) result
        (transitions_game transitions.items header.now.states header.now.choices) }
{
    let mut transitions = transitions;
    put_in_order(&mut transitions)?;
    build_in_order(alloc, &transitions, header)
}

fn build_in_order(
    alloc: Global,
    transitions: &[Transition],
    header: &Header,
) -> Result<Game, TraFault>
    requires accepted { IsAccepted header.now }
    requires rises { Rises transition_place transitions.now }
    requires within { All (IsWithin header.now.states) transitions.now }
    ensures { AnswersOrWants IsOutOfMemory (λ g. g) result
        (transitions_game transitions.now header.now.states header.now.choices) }
{
    let mut game = GameInOrder::new(alloc, header.states)?;
    for transition in transitions {
        game.add(alloc, transition)?;
    }
    game.finish(alloc, header.choices)
}
