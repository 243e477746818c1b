//! This module finds upper tables of components.

ghost use Rattle.std.specs.Prelude.{◌≡◌, ◌+◌, ◌<◌, length};
ghost use Rattle.game_model.specs.Query.{states};

use crate::edges::{add_edges, draft_of};
use crate::end_components::EndComponents;
use crate::input::Input;
use crate::lower::{clear_nodes, note, note_value, numbers, place_nodes};
use crate::replies::is_played;
use crate::state_order::NONE;
use float_games::{Bound, Draft, FloatGame};
use game_model::Side;
use game_outside::OutOfMemory;
use local_values::solve_nearly;
use std::alloc::Global;
use std::num::nearest_u64_to_f64;
use table_rounding::{Input as RoundingInput, UnitTable, cost_of, round_component, single_entry};

/// Upper values begin with a value for each state, in units, and a choice of the maximiser.
#[derive(Drop)]
pub struct Start<'a> {
    /// These are the values.
    pub values: &'a [f64],
    /// These are the choices.
    pub planned: &'a [u32],
}

/// A local game is made from the node of each member of the component, the end components, the initial choices, and the
/// minimiser's replies.
#[derive(Drop)]
struct Shape<'a> {
    nodes: &'a [u32],
    end_components: &'a EndComponents,
    planned: &'a [u32],
    replies: &'a [u32],
}

/// The local game of a component comes with an initial policy.
#[derive(Drop)]
struct Local {
    game: FloatGame,
    policy: Vec<u32>,
}

/// Finds upper entries for the states of a component when the minimiser plays these replies. It also finds values to
/// compare replies by: the entries, or what could not be rounded. The states of an end component have one node, with
/// the choices that leave it. If no values are found, the entries are the unit.
pub(crate) fn upper_component(
    alloc: Global,
    input: &Input<'_, '_>,
    component: u32,
    end_components: &EndComponents,
    start: &Start<'_>,
    upper: &mut UnitTable,
    shown: &mut [f64],
    replies: &mut [u32],
    node_of: &mut [u32],
) -> Result<(), OutOfMemory>
    requires counted { component + 1 < length input.now.components.now.starts }
    requires upper { length upper.old ≡ states input.now.question.now }
    requires replies { length replies.old ≡ states input.now.question.now }
    ensures upper { length upper.new ≡ length upper.old }
    ensures replies { length replies.new ≡ length replies.old }
{
    let members = input.components.members(component);
    if members.len() == 1 {
        let state = members[0];
        let entry = single_entry(
            input.question,
            upper,
            Bound::Upper,
            state,
            Some(input.costs),
        );
        upper.set(state, entry.value);
        note_value(shown, state, nearest_u64_to_f64(entry.value));
        note(replies, state, entry.choice);
        return Ok(());
    }
    give_up(input, component, upper);
    let nodes = nodes_of_members(alloc, input, component, end_components)?;
    let shape = Shape {
        nodes: &nodes,
        end_components,
        planned: start.planned,
        replies,
    };
    let Some(local) = local_game(alloc, input, members, &shape, upper, node_of)? else {
        return Ok(());
    };
    let game = local.game;
    let mut policy = local.policy;
    let mut values = first_values(alloc, input, component, &nodes, start.values, game.nodes())?;
    if values.len() != game.nodes() || policy.len() != game.nodes() {
        return Ok(());
    }
    solve_nearly(alloc, &game, &mut values, &mut policy)?;
    let rounding = RoundingInput {
        question: input.question,
        predecessors: input.predecessors,
        components: input.components,
        component,
        game: &game,
        nodes: &nodes,
        bound: Bound::Upper,
        costs: Some(input.costs),
    };
    let is_held = round_component(alloc, &rounding, &values, &policy, replies, upper)?;
    show(members, &nodes, &values, is_held, upper, shown);
    Ok(())
}

/// Shows the entries of a component if they hold, and else the values of its nodes.
fn show(
    members: &[u32],
    nodes: &[u32],
    values: &[f64],
    is_held: bool,
    upper: &UnitTable,
    shown: &mut [f64],
) {
    for (state, node) in members.iter().zip(nodes) {
        let entry = upper.entries().get(*state as usize).copied().unwrap_or(0);
        let value = if is_held {
            nearest_u64_to_f64(entry)
        } else {
            values.get(*node as usize).copied().unwrap_or(0.0)
        };
        note_value(shown, *state, value);
    }
}

/// Gives the states of a component the entry that always holds.
fn give_up(input: &Input<'_, '_>, component: u32, upper: &mut UnitTable)
    requires counted { component + 1 < length input.now.components.now.starts }
    requires upper { length upper.old ≡ states input.now.question.now }
    ensures { length upper.new ≡ length upper.old }
{
    let members = input.components.members(component);
    for place in 0..members.len() {
        upper.set(members[place], u64::MAX);
    }
}

/// Returns the node of each member. Each end component has one, in the order of their first members.
fn nodes_of_members(
    alloc: Global,
    input: &Input<'_, '_>,
    component: u32,
    end_components: &EndComponents,
) -> Result<Vec<u32>, OutOfMemory>
    requires { component + 1 < length input.now.components.now.starts }
{
    let members = input.components.members(component);
    if end_components.are_alone() {
        return numbers(alloc, members.len());
    }
    let mut leads = vec![in alloc; 0u32; members.len()]?;
    let mut next: u32 = 0;
    for (place, state) in members.iter().enumerate() {
        if end_components.lead_of(*state) == *state {
            note(&mut leads, u32::try_from(place).unwrap_or(u32::MAX), next);
            next = next.saturating_add(1);
        }
    }
    let mut nodes = Vec::with_capacity(alloc, members.len())?;
    for state in members {
        let lead = end_components.lead_of(*state);
        nodes.push(node_of(input, component, &leads, lead))?;
    }
    Ok(nodes)
}

/// Returns the entry of a state in a list over the members of its component.
fn node_of(input: &Input<'_, '_>, component: u32, list: &[u32], state: u32) -> u32 {
    if state < input.question.game().states() && input.components.component_of(state) == component {
        let place = input.components.place_of(state) as usize;
        list.get(place).copied().unwrap_or(0)
    } else {
        0
    }
}

/// Returns the initial value of each node, which is the greatest of its members.
fn first_values(
    alloc: Global,
    input: &Input<'_, '_>,
    component: u32,
    nodes: &[u32],
    start: &[f64],
    count: usize,
) -> Result<Vec<f64>, OutOfMemory>
    requires counted { component + 1 < length input.now.components.now.starts }
{
    let mut values = vec![in alloc; 0.0; count]?;
    for (place, state) in input.components.members(component).iter().enumerate() {
        let node = nodes.get(place).copied().unwrap_or(0) as usize;
        let value = start.get(*state as usize).copied().unwrap_or(0.0);
        if let Some(entry) = values.get_mut(node) {
            if *entry < value {
                *entry = value;
            }
        }
    }
    Ok(values)
}

/// Makes the local game. What leaves it gives what the table says.
fn local_game(
    alloc: Global,
    input: &Input<'_, '_>,
    members: &[u32],
    shape: &Shape<'_>,
    upper: &UnitTable,
    node_of: &mut [u32],
) -> Result<Option<Local>, OutOfMemory> {
    place_nodes(members, shape.nodes, node_of);
    let question = input.question;
    let mut draft = draft_of(alloc, question, members)?;
    let mut policy = Vec::with_capacity(alloc, members.len())?;
    for state in members {
        if *state < question.game().states() && shape.end_components.lead_of(*state) == *state {
            let first = add_group(
                input,
                shape,
                upper,
                node_of,
                *state,
                members.len(),
                &mut draft,
            )?;
            policy.push(first)?;
        }
    }
    clear_nodes(members, node_of);
    match draft.finish() {
        Some(game) => Ok(Some(Local { game, policy })),
        None => Ok(None),
    }
}

/// Adds the node of an end component of at most this many states, or of a state that is in none. Returns the initial
/// choice.
fn add_group(
    input: &Input<'_, '_>,
    shape: &Shape<'_>,
    upper: &UnitTable,
    node_of: &[u32],
    lead: u32,
    most: usize,
    draft: &mut Draft,
) -> Result<u32, OutOfMemory>
    requires { lead < states input.now.question.now }
{
    let question = input.question;
    let is_merged = shape.end_components.next_of(lead) != NONE;
    let mut first = u32::try_from(draft.choices()).unwrap_or(0);
    let mut state = lead;
    for _ in 0..most {
        if state >= question.game().states() {
            break;
        }
        if let Some(planned) = add_state(input, shape, upper, node_of, state, is_merged, draft)? {
            first = planned;
        }
        state = shape.end_components.next_of(state);
    }
    draft.end_node(is_merged || question.side(lead) == Side::Max)?;
    Ok(first)
}

/// Adds the choices of a state. For an end component these are the ones that leave it. Returns the choice with which
/// the maximiser begins.
fn add_state(
    input: &Input<'_, '_>,
    shape: &Shape<'_>,
    upper: &UnitTable,
    node_of: &[u32],
    state: u32,
    is_merged: bool,
    draft: &mut Draft,
) -> Result<Option<u32>, OutOfMemory>
    requires { state < states input.now.question.now }
{
    let question = input.question;
    let maximises = question.side(state) == Side::Max;
    let wanted = shape.planned.get(state as usize).copied();
    let row = question.row(state);
    let mut planned = None;
    for choice in 0..row.choices() {
        let is_inner = is_merged && shape.end_components.hold(question, state, choice);
        if !is_inner && is_played(question, shape.replies, state, choice) {
            let cost = cost_of(Some(input.costs), question.game(), state, choice);
            add_edges(&row, choice, cost, node_of, upper.entries(), draft)?;
            let number = u32::try_from(draft.choices()).unwrap_or(0);
            if draft.end_choice(choice)? && maximises && wanted == Some(choice) {
                planned = Some(number);
            }
        }
    }
    Ok(planned)
}
