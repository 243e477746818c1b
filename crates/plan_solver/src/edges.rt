//! This module adds the edges of local games.

ghost use Rattle.std.specs.Prelude.{◌≡◌, ◌<◌, length};

use crate::state_order::NONE;
use crate::weights::{float_of, is_narrow};
use float_games::Draft;
use game_model::{Question, Row};
use game_outside::OutOfMemory;
use std::alloc::Global;
use std::num::nearest_u64_to_f64;

/// Returns an empty local game with room for the choices and edges of these states.
pub(crate) fn draft_of(
    alloc: Global,
    question: &Question,
    members: &[u32],
) -> Result<Draft, OutOfMemory> {
    let game = question.game();
    let mut choices: u64 = 0;
    let mut edges: u64 = 0;
    for state in members {
        if *state < game.states() {
            choices = choices.saturating_add(u64::from(game.choices_of(*state)));
            let below = game.edges_below(*state);
            edges = edges.saturating_add(game.edges_below(*state + 1).saturating_sub(below));
        }
    }
    Draft::new(alloc, members.len(), choices as usize, edges as usize)
}

/// Adds the edges of a choice, and its cost in units. An edge leads to the node of a state, or out of the local game
/// with the entry of a state that has none.
pub(crate) fn add_edges(
    row: &Row<'_>,
    choice: u32,
    cost: u64,
    nodes: &[u32],
    entries: &[u64],
    draft: &mut Draft,
) -> Result<(), OutOfMemory>
    requires { choice < length row.now }
{
    if cost > 0 {
        draft.add_cost(float_of(row.total(choice)), nearest_u64_to_f64(cost));
    }
    if is_narrow(row.total(choice)) {
        let weights = row.narrow_weights(choice);
        for (to, weight) in row.successors(choice).iter().zip(weights) {
            add_edge(nodes, entries, *to, nearest_u64_to_f64(*weight), draft)?;
        }
        return Ok(());
    }
    for place in 0..row.edge_count(choice) {
        let edge = row.edge(choice, place);
        add_edge(nodes, entries, edge.to, float_of(edge.weight), draft)?;
    }
    Ok(())
}

/// Adds an edge.
fn add_edge(
    nodes: &[u32],
    entries: &[u64],
    to: u32,
    weight: f64,
    draft: &mut Draft,
) -> Result<(), OutOfMemory> {
    let node = nodes.get(to as usize).copied().unwrap_or(NONE);
    if node != NONE {
        return draft.add_edge(node, weight);
    }
    let entry = entries.get(to as usize).copied().unwrap_or(0);
    draft.add_exit(weight, nearest_u64_to_f64(entry));
    Ok(())
}
