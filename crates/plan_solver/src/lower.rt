//! This module finds lower tables of components.

ghost use Rattle.std.specs.Prelude.{◌≡◌, ◌+◌, ◌<◌, length};
ghost use Rattle.game_model.specs.Query.{states};

use crate::edges::{add_edges, draft_of};
use crate::input::Input;
use crate::state_order::NONE;
use float_games::{Bound, Draft, FloatGame};
use game_model::Side;
use game_outside::OutOfMemory;
use local_values::solve_nearly;
use std::alloc::Global;
use std::num::nearest_u64_to_f64;
use table_rounding::{Input as RoundingInput, UnitTable, cost_of, round_component, single_entry};

/// The local game of a component comes with an initial policy.
#[derive(Drop)]
struct Local {
    game: FloatGame,
    policy: Vec<u32>,
}

/// Finds lower entries for the states of a component, the choices of the maximiser that they go by, the best replies of
/// the minimiser, and the values that the entries were rounded from. Values begin at 0, and the maximiser begins with
/// the choices that lead toward a goal, so that no value is kept up by play that stays for ever.
pub(crate) fn lower_component(
    alloc: Global,
    input: &Input<'_, '_>,
    component: u32,
    lower: &mut UnitTable,
    planned: &mut [u32],
    replies: &mut [u32],
    found: &mut [f64],
    node_of: &mut [u32],
) -> Result<(), OutOfMemory>
    requires counted { component + 1 < length input.now.components.now.starts }
    requires lower { length lower.old ≡ states input.now.question.now }
    requires planned { length planned.old ≡ states input.now.question.now }
    ensures lower { length lower.new ≡ length lower.old }
    ensures planned { length planned.new ≡ length planned.old }
    ensures replies { length replies.new ≡ length replies.old }
{
    let members = input.components.members(component);
    if members.len() == 1 {
        let state = members[0];
        let entry = single_entry(
            input.question,
            lower,
            Bound::Lower,
            state,
            Some(input.costs),
        );
        lower.set(state, entry.value);
        note(planned, state, entry.choice);
        note(replies, state, entry.choice);
        note_value(found, state, nearest_u64_to_f64(entry.value));
        return Ok(());
    }
    let nodes = numbers(alloc, members.len())?;
    let Some(local) = local_game(alloc, input, members, &nodes, lower, node_of)? else {
        return Ok(());
    };
    let game = local.game;
    let mut policy = local.policy;
    if policy.len() != game.nodes() {
        return Ok(());
    }
    let mut values = vec![in alloc; 0.0; game.nodes()]?;
    solve_nearly(alloc, &game, &mut values, &mut policy)?;
    for (place, state) in members.iter().enumerate() {
        if let (Some(choice), Some(value)) = (policy.get(place), values.get(place)) {
            note(replies, *state, game.mark(*choice));
            note_value(found, *state, *value);
        }
    }
    let rounding = RoundingInput {
        question: input.question,
        predecessors: input.predecessors,
        components: input.components,
        component,
        game: &game,
        nodes: &nodes,
        bound: Bound::Lower,
        costs: Some(input.costs),
    };
    let _is_held = round_component(alloc, &rounding, &values, &policy, planned, lower)?;
    Ok(())
}

/// Notes a choice of a state.
pub(crate) fn note(choices: &mut [u32], state: u32, choice: u32)
    ensures { length choices.new ≡ length choices.old }
{
    if let Some(entry) = choices.get_mut(state as usize) {
        *entry = choice;
    }
}

/// Notes a value of a state.
pub(crate) fn note_value(values: &mut [f64], state: u32, value: f64) {
    if let Some(entry) = values.get_mut(state as usize) {
        *entry = value;
    }
}

/// Returns the numbers below this one.
pub(crate) fn numbers(alloc: Global, end: usize) -> Result<Vec<u32>, OutOfMemory> {
    let list = (0..end)
        .map(|number| u32::try_from(number).unwrap_or(u32::MAX))
        .collect(alloc)?;
    Ok(list)
}

/// Notes the nodes of the members of a component.
pub(crate) fn place_nodes(members: &[u32], nodes: &[u32], node_of: &mut [u32]) {
    for (state, node) in members.iter().zip(nodes) {
        note(node_of, *state, *node);
    }
}

/// Clears the nodes of the members of a component.
pub(crate) fn clear_nodes(members: &[u32], node_of: &mut [u32]) {
    for state in members {
        note(node_of, *state, NONE);
    }
}

/// Makes the local game, with a node for each member. What leaves it gives what the table says.
fn local_game(
    alloc: Global,
    input: &Input<'_, '_>,
    members: &[u32],
    nodes: &[u32],
    lower: &UnitTable,
    node_of: &mut [u32],
) -> Result<Option<Local>, OutOfMemory> {
    place_nodes(members, nodes, node_of);
    let toward = &input.state_order.toward;
    let mut draft = draft_of(alloc, input.question, members)?;
    let mut policy = Vec::with_capacity(alloc, members.len())?;
    for state in members {
        if *state < input.question.game().states() {
            let wanted = toward.get(*state as usize).copied().unwrap_or(NONE);
            policy.push(add_state(input, wanted, lower, node_of, *state, &mut draft)?)?;
        }
    }
    clear_nodes(members, node_of);
    match draft.finish() {
        Some(game) => Ok(Some(Local { game, policy })),
        None => Ok(None),
    }
}

/// Adds the node of a state, and returns its initial choice. For the maximiser this is the wanted one.
fn add_state(
    input: &Input<'_, '_>,
    wanted: u32,
    lower: &UnitTable,
    node_of: &[u32],
    state: u32,
    draft: &mut Draft,
) -> Result<u32, OutOfMemory>
    requires { state < states input.now.question.now }
{
    let side = input.question.side(state);
    let row = input.question.row(state);
    let mut first = u32::try_from(draft.choices()).unwrap_or(0);
    for choice in 0..row.choices() {
        let cost = cost_of(Some(input.costs), input.question.game(), state, choice);
        add_edges(&row, choice, cost, node_of, lower.entries(), draft)?;
        let number = u32::try_from(draft.choices()).unwrap_or(0);
        let is_in = draft.end_choice(choice)?;
        if is_in && side == Side::Max && wanted == choice {
            first = number;
        }
    }
    draft.end_node(side == Side::Max)?;
    Ok(first)
}
