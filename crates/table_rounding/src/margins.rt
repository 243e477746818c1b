//! This module makes tries, one after another: with the values themselves, and then with values that are moved away.

ghost use Rattle.std.specs.Prelude.{◌≡◌, ◌<◌, IfOk, length, vec_len};
ghost use Rattle.game_model.specs.Query.{states};
ghost use Rattle.float_games.specs.Nodes.{nodes_of};

use crate::input::Input;
use crate::rounding::{Effort, try_values};
use crate::table::UnitTable;
use float_games::Bound;
use game_model::{Side, UNIT};
use game_outside::OutOfMemory;
use local_values::{find_slide, solve};
use std::alloc::Global;

/// Values of more nodes than this are not tried before they are moved.
const MOST_BOLD: usize = 5_000;

/// With more nodes than this the first try gives up soon, and values are brought nearer in greater steps.
const MANY: usize = 1_000;

/// A move takes this many units, which is a little more than rounding takes.
const SLOPE: f64 = 1.25;

/// A move costs this many units in the first try. The next constants say by which factor that grows from try to try,
/// and how many tries there are.
const COST: f64 = 1.5;

const COST_GROWTH: f64 = 8.0;

const COSTS: u32 = 4;

/// Values of few nodes are not brought nearer by less than this many units, and others not by less than the next
/// number.
const NEAR_OF_FEW: f64 = 10.0;

const NEAR: f64 = 200.0;

/// Rounds values of a component to entries that hold. The maximiser's choices of a lower table are planned by the
/// policy, and by that of other values if these are rounded. It returns false if nothing holds soon, and the entries
/// are then 0, or the unit in an upper table. The only error is that memory ran out.
pub fn round_component(
    alloc: Global,
    input: &Input<'_, '_>,
    values: &[f64],
    policy: &[u32],
    planned: &mut [u32],
    table: &mut UnitTable,
) -> Result<bool, OutOfMemory>
    requires values { length values.now ≡ nodes_of input.now.game.now }
    requires policy { length policy.now ≡ nodes_of input.now.game.now }
    requires planned { length planned.old ≡ states input.now.question.now }
    requires many { length table.old ≡ states input.now.question.now }
    ensures { length table.new ≡ length table.old }
{
    plan(input, policy, planned);
    let nodes = input.game.nodes();
    let bold = bold_effort(input);
    if nodes <= MOST_BOLD && try_values(alloc, input, values, policy, planned, table, bold)? {
        return Ok(true);
    }
    let moved = try_moved(alloc, input, values, policy, planned, table)?;
    if moved == Moved::Held {
        return Ok(true);
    }
    let stopped = entries_of(alloc, input, table)?;
    let is_held = try_costs(alloc, input, values, policy, planned, table)?;
    if moved == Moved::Failed {
        if !is_held {
            give_up(input, table);
        }
        return Ok(is_held);
    }
    let costly = entries_of(alloc, input, table)?;
    if !is_held || !is_nearer(input.bound, &costly, &stopped) {
        plan(input, policy, planned);
        put_back(input, &stopped, table);
    }
    Ok(true)
}

/// A try of values that are moved away failed, or its entries hold. Some of these may have stopped at the end of their
/// room.
#[derive(Clone, Copy, PartialEq, Eq)]
enum Moved {
    Failed,
    Held,
    HeldPastStops,
}

/// Returns whether the sum of entries is nearer to the values than that of others.
fn is_nearer(bound: Bound, entries: &[u64], others: &[u64]) -> bool {
    match bound {
        Bound::Lower => sum_of(entries) > sum_of(others),
        Bound::Upper => sum_of(entries) < sum_of(others),
    }
}

/// Returns the sum of entries.
fn sum_of(entries: &[u64]) -> u128 {
    entries.iter().fold(0, |sum: u128, entry| sum.saturating_add(u128::from(*entry)))
}

/// Plans the maximiser's choices of a lower table by a policy. An upper table has choices of the minimiser, and the
/// local game has only its replies.
fn plan(input: &Input<'_, '_>, policy: &[u32], planned: &mut [u32])
    requires { length planned.old ≡ states input.now.question.now }
{
    if input.bound == Bound::Upper {
        return;
    }
    let members = input.components.members(input.component);
    for place in 0..members.len() {
        let state = members[place];
        let choice = input
            .nodes
            .get(place)
            .and_then(|node| policy.get(*node as usize));
        if let (Side::Max, Some(choice)) = (input.question.side(state), choice) {
            planned[state as usize] = input.game.mark(*choice);
        }
    }
}

/// Returns about how many choices a sweep looks at, which are more if the game has nodes of both sides.
fn sweep_work(input: &Input<'_, '_>) -> u64 {
    let both = if input.game.has_both_sides() {
        input.game.edges() as u64 / 3
    } else {
        0
    };
    (input.game.nodes() as u64).saturating_add(both)
}

/// Returns the effort of the try of the values themselves.
fn bold_effort(input: &Input<'_, '_>) -> Effort {
    Effort {
        looks: sweep_work(input).saturating_mul(12).saturating_add(7_000),
        is_hasty: input.game.nodes() > MANY,
    }
}

/// Returns the effort of other tries.
fn full_effort(input: &Input<'_, '_>) -> Effort {
    Effort {
        looks: sweep_work(input).saturating_mul(40).saturating_add(33_000),
        is_hasty: false,
    }
}

/// Tries values that are moved away by some units for each move that the policy is expected to make.
fn try_moved(
    alloc: Global,
    input: &Input<'_, '_>,
    values: &[f64],
    policy: &[u32],
    planned: &[u32],
    table: &mut UnitTable,
) -> Result<Moved, OutOfMemory>
    requires values { length values.now ≡ nodes_of input.now.game.now }
    requires policy { length policy.now ≡ nodes_of input.now.game.now }
    requires planned { length planned.now ≡ states input.now.question.now }
    requires many { length table.old ≡ states input.now.question.now }
    ensures { length table.new ≡ length table.old }
{
    let rooms = rooms_of(alloc, input, values)?;
    let Some(slide) = find_slide(alloc, input.game, policy, SLOPE, &rooms)? else {
        return Ok(Moved::Failed);
    };
    let sign = match input.bound {
        Bound::Lower => -1.0,
        Bound::Upper => 1.0,
    };
    let slope = sign * SLOPE;
    let least = between(alloc, values, &slide.drops, sign)?;
    let far = between(alloc, &least, &slide.moves, slope)?;
    let effort = full_effort(input);
    if !try_values(alloc, input, &far, policy, planned, table, effort)? {
        return Ok(Moved::Failed);
    }
    narrow(
        alloc,
        input,
        &least,
        &slide.moves,
        slope,
        policy,
        planned,
        table,
    )?;
    Ok(if widest(&slide.drops) > 0.0 {
        Moved::HeldPastStops
    } else {
        Moved::Held
    })
}

/// Returns how far each value can be moved away.
fn rooms_of(alloc: Global, input: &Input<'_, '_>, values: &[f64]) -> Result<Vec<f64>, OutOfMemory>
    ensures { IfOk result (λ list. vec_len list ≡ length values.now) }
{
    let mut list = values.to_vec(alloc)?;
    if input.bound == Bound::Upper {
        for room in &mut list {
            *room = float_games::UNIT - *room;
        }
    }
    Ok(list)
}

/// Tries values that are found anew when each move costs some units, and more from try to try.
fn try_costs(
    alloc: Global,
    input: &Input<'_, '_>,
    values: &[f64],
    policy: &[u32],
    planned: &mut [u32],
    table: &mut UnitTable,
) -> Result<bool, OutOfMemory>
    requires values { length values.now ≡ nodes_of input.now.game.now }
    requires policy { length policy.now ≡ nodes_of input.now.game.now }
    requires planned { length planned.old ≡ states input.now.question.now }
    requires many { length table.old ≡ states input.now.question.now }
    ensures table { length table.new ≡ length table.old }
    ensures planned { length planned.new ≡ length planned.old }
{
    let mut cost = COST;
    for _ in 0..COSTS {
        if try_cost(alloc, input, cost, values, policy, planned, table)? {
            return Ok(true);
        }
        cost *= COST_GROWTH;
    }
    Ok(false)
}

/// Tries values that are found anew when each move costs this many units.
fn try_cost(
    alloc: Global,
    input: &Input<'_, '_>,
    cost: f64,
    values: &[f64],
    policy: &[u32],
    planned: &mut [u32],
    table: &mut UnitTable,
) -> Result<bool, OutOfMemory>
    requires values { length values.now ≡ nodes_of input.now.game.now }
    requires policy { length policy.now ≡ nodes_of input.now.game.now }
    requires planned { length planned.old ≡ states input.now.question.now }
    requires many { length table.old ≡ states input.now.question.now }
    ensures { length table.new ≡ length table.old }
{
    let signed = match input.bound {
        Bound::Lower => -cost,
        Bound::Upper => cost,
    };
    let mut away = values.to_vec(alloc)?;
    let mut other = policy.to_vec(alloc)?;
    let _is_found = solve(alloc, input.game, signed, &mut away, &mut other)?;
    plan(input, &other, planned);
    let effort = full_effort(input);
    if !try_values(alloc, input, &away, &other, planned, table, effort)? {
        return Ok(false);
    }
    add_multiple(&mut away, -1.0, values);
    narrow(alloc, input, values, &away, 1.0, &other, planned, table)?;
    Ok(true)
}

/// Returns the values, each moved by a multiple of the entry of `away`.
fn between(alloc: Global, values: &[f64], away: &[f64], part: f64) -> Result<Vec<f64>, OutOfMemory>
    ensures { IfOk result (λ list. vec_len list ≡ length values.now) }
{
    let mut list = values.to_vec(alloc)?;
    add_multiple(&mut list, part, away);
    Ok(list)
}

/// Adds to each value a multiple of another one.
fn add_multiple(values: &mut [f64], factor: f64, others: &[f64]) {
    for (value, other) in values.iter_mut().zip(others) {
        *value += factor * *other;
    }
}

/// Brings entries that hold nearer by halves. They were rounded from values that are moved all the way.
fn narrow(
    alloc: Global,
    input: &Input<'_, '_>,
    values: &[f64],
    away: &[f64],
    slope: f64,
    policy: &[u32],
    planned: &[u32],
    table: &mut UnitTable,
) -> Result<(), OutOfMemory>
    requires values { length values.now ≡ nodes_of input.now.game.now }
    requires policy { length policy.now ≡ nodes_of input.now.game.now }
    requires planned { length planned.now ≡ states input.now.question.now }
    requires many { length table.old ≡ states input.now.question.now }
    ensures { length table.new ≡ length table.old }
{
    let width = slope.abs() * widest(away);
    let effort = full_effort(input);
    let least = least_step(input);
    if !(width > least) {
        return Ok(());
    }
    let mut best = entries_of(alloc, input, table)?;
    let mut near = 0.0;
    let mut end = 1.0;
    for _ in 0..halves(input) {
        if !(width * (end - near) > least) {
            break;
        }
        let part = 0.5 * (near + end);
        let middle = between(alloc, values, away, part * slope)?;
        if try_values(alloc, input, &middle, policy, planned, table, effort)? {
            end = part;
            best = entries_of(alloc, input, table)?;
        } else {
            near = part;
        }
    }
    put_back(input, &best, table);
    Ok(())
}

/// Returns by how many units values are brought nearer at least. This is less for few nodes, because a try then takes
/// little.
fn least_step(input: &Input<'_, '_>) -> f64 {
    if input.game.nodes() <= MANY {
        NEAR_OF_FEW
    } else {
        NEAR
    }
}

/// Returns how many times entries are brought nearer. These are few if a try takes long.
fn halves(input: &Input<'_, '_>) -> u32 {
    if input.game.nodes() < 100_000 { 14 } else { 2 }
}

/// Returns the greatest size of an entry.
fn widest(list: &[f64]) -> f64 {
    list.iter()
        .fold(0.0, |most, x| if x.abs() > most { x.abs() } else { most })
}

/// Returns the entries of the members of the component.
fn entries_of(
    alloc: Global,
    input: &Input<'_, '_>,
    table: &UnitTable,
) -> Result<Vec<u64>, OutOfMemory>
    requires { length table.now ≡ states input.now.question.now }
{
    let members = input.components.members(input.component);
    let mut list = Vec::with_capacity(alloc, members.len())?;
    for state in members {
        list.push(table.get(*state))?;
    }
    Ok(list)
}

/// Gives the members of the component these entries.
fn put_back(input: &Input<'_, '_>, entries: &[u64], table: &mut UnitTable)
    requires { length table.old ≡ states input.now.question.now }
    ensures { length table.new ≡ length table.old }
{
    let members = input.components.members(input.component);
    for place in 0..members.len() {
        let entry = entries.get(place).copied().unwrap_or(0);
        table.set(members[place], entry);
    }
}

/// Gives the members of the component the entry that always holds.
fn give_up(input: &Input<'_, '_>, table: &mut UnitTable)
    requires { length table.old ≡ states input.now.question.now }
    ensures { length table.new ≡ length table.old }
{
    let entry = match input.bound {
        Bound::Lower => 0,
        Bound::Upper => UNIT,
    };
    let members = input.components.members(input.component);
    for place in 0..members.len() {
        table.set(members[place], entry);
    }
}
