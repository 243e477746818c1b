//! This module draws the choices of a state.

ghost use Rattle.std.specs.Prelude.{◌≡◌, ◌+◌, ◌^◌, ◌<◌, ◌≤◌, IfOk, OnOk};
ghost use Rattle.game_model.specs.Game.{total_of};
ghost use Rattle.drawn_game.specs.Limits.{least_states};
ghost use Rattle.drawn_game.specs.inside.Adding.{with_part};
ghost use Rattle.drawn_game.specs.Rules.{drawn_choice};

use crate::draws::Draws;
use game_model::{Choice, Edge};
use game_outside::OutOfMemory;
use std::alloc::{AllocError, Global};

/// Draws a choice.
pub fn draw_choice(alloc: Global, draws: &mut Draws, states: u32) -> Result<Choice, OutOfMemory>
    requires { least_states ≤ states }
    ensures value { IfOk result (λ choice. choice ≡ (drawn_choice states draws.old).value) }
    ensures last { OnOk result (draws.new ≡ (drawn_choice states draws.old).last) }
{
    let others = 1 + draws.draw() % 3;
    let mut edges = Vec::with_capacity(alloc, others as usize + 1)?;
    edges.push(draws.first_part(states))?;
    for _part in 0..others {
        let part = draws.other_part(states);
        add_part(&mut edges, part)?;
    }
    Ok(Choice::of_edges(edges))
}

/// Adds a part to edges in the order of their successors.
fn add_part(edges: &mut Vec<Edge>, part: Edge) -> Result<(), AllocError>
    requires { total_of edges.old.items + part.weight < 2 ^ 128 }
    ensures { OnOk result (edges.new.items ≡ with_part edges.old.items part) }
{
    for place in 0..edges.len() {
        let edge = edges[place];
        if part.to < edge.to {
            edges.insert(place, part)?;
            return Ok(());
        }
        if part.to == edge.to {
            edges[place].weight += part.weight;
            return Ok(());
        }
    }
    edges.push(part)?;
    Ok(())
}
