//! This module draws the states of a game.

ghost use Rattle.std.specs.Prelude.{◌≡◌, ◌≤◌, [], ◌∷◌, ◌++◌, IfOk, OnOk};
ghost use Rattle.game_model.specs.Draft.{between};
ghost use Rattle.drawn_game.specs.Limits.{least_states};
ghost use Rattle.drawn_game.specs.Rules.{drawn_state, side_of, stay};

use crate::choices::draw_choice;
use crate::draws::Draws;
use game_model::{Choice, Edge, GameBuilder, Side};
use game_outside::OutOfMemory;
use std::alloc::{AllocError, Global};

/// Draws a state: its side, and its choices, which are added to the builder.
pub fn draw_state(
    alloc: Global,
    draws: &mut Draws,
    states: u32,
    builder: &mut GameBuilder,
) -> Result<Side, OutOfMemory>
    requires states { least_states ≤ states }
    requires between { builder.old.under_way ≡ [] }
    ensures side { IfOk result (λ side. side ≡ (drawn_state states draws.old).value.side) }
    ensures last { OnOk result (draws.new ≡ (drawn_state states draws.old).last) }
    ensures built { OnOk result (builder.new ≡ between (builder.old.done ++ (drawn_state states draws.old).value.choices
        ∷ [])) }
{
    let side = side_drawn(draws.draw());
    let choices = 1 + draws.draw() % 3;
    for _choice in 0..choices {
        let choice = draw_choice(alloc, draws, states)?;
        builder.push_choice(&choice)?;
    }
    builder.end_state()?;
    Ok(side)
}

/// Returns the side that a draw gives.
fn side_drawn(draw: u32) -> Side
    ensures { result ≡ side_of draw }
{
    if draw % 2 == 0 { Side::Max } else { Side::Min }
}

/// Adds a state of the maximiser that leads only to itself.
pub fn add_stay(
    alloc: Global,
    state: u32,
    builder: &mut GameBuilder,
    sides: &mut Vec<Side>,
) -> Result<(), OutOfMemory>
    requires between { builder.old.under_way ≡ [] }
    ensures built { OnOk result (builder.new ≡ between (builder.old.done ++ (stay state ∷ []) ∷ [])) }
    ensures sides { OnOk result (sides.new.items ≡ sides.old.items ++ Side.Max ∷ []) }
{
    let choice = stay_at(alloc, state)?;
    builder.push_choice(&choice)?;
    builder.end_state()?;
    sides.push(Side::Max)?;
    Ok(())
}

/// Returns the choice that has weight 1 to one state.
fn stay_at(alloc: Global, state: u32) -> Result<Choice, AllocError>
    ensures { IfOk result (λ choice. choice ≡ stay state) }
{
    let mut edges = Vec::with_capacity(alloc, 1)?;
    edges.push(Edge {
        to: state,
        weight: 1,
    })?;
    Ok(Choice::of_edges(edges))
}
