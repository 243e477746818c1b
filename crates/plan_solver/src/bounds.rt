//! This module finds the bounds of a question, component by component.

ghost use Rattle.std.specs.Prelude.{◌≡◌, ◌+◌, ◌<◌, IfOk, length, vec_len};
ghost use Rattle.game_model.specs.Query.{states};
ghost use Rattle.predecessors.specs.Lists.{ArePredecessors};
ghost use Rattle.plan_solver.specs.Tables.{IsTableOrNone};

use crate::end_components::{find_end_components, open_components};
use crate::input::{Input, is_open};
use crate::lower::lower_component;
use crate::replies::improve_replies;
use crate::state_order::{NONE, StateOrder};
use crate::upper::{Start, upper_component};
use float_games::UNIT;
use game_model::{Marks, Question};
use game_outside::OutOfMemory;
use predecessors::Predecessors;
use solved_plans::Candidates;
use std::alloc::Global;
use std::num::nearest_u64_to_f64;
use table_rounding::UnitTable;

/// Upper tables are found at most this many times, each over better replies.
const TURNS: u32 = 6;

/// Finds what a solver takes for lower and upper bounds of a question, over the predecessors in its game, when the
/// states of value 1 and those of value 0 are known. If these are all states, the tables are empty. Values to begin
/// with, one for each state, are only hints: upper values begin with them. The only error is that memory ran out.
pub fn find_bounds(
    alloc: Global,
    question: &Question,
    predecessors: &Predecessors,
    sure: &Marks,
    zero: &Marks,
    hints: Option<&[f64]>,
) -> Result<Candidates, OutOfMemory>
    requires predecessors { ArePredecessors question.now.game predecessors.now }
    requires sure { length sure.now ≡ states question.now }
    requires zero { length zero.now ≡ states question.now }
    ensures lower { IfOk result (λ c. IsTableOrNone (states question.now) c.lower.items) }
    ensures upper { IfOk result (λ c. IsTableOrNone (states question.now) c.upper.items) }
{
    question.invariant();
    if !has_open(question, sure, zero) {
        return Ok(Candidates {
            lower: Vec::new(alloc),
            upper: Vec::new(alloc),
        });
    }
    let state_order = StateOrder::of_question(alloc, question, predecessors, None)?;
    let components = open_components(alloc, question, sure, zero, &state_order.order)?;
    let input = Input {
        question,
        predecessors,
        state_order: &state_order,
        components: &components,
        sure,
        zero,
        costs: &[],
    };
    let states = question.game().states() as usize;
    let mut replies = vec![in alloc; 0u32; states]?;
    let mut node_of = vec![in alloc; NONE; states]?;
    let lower = lower_bounds(alloc, &input, &mut replies, &mut node_of)?;
    let values = first_values(lower.values, hints);
    let start = Start {
        values: &values,
        planned: &lower.planned,
    };
    let upper = upper_table(alloc, &input, &start, &mut replies, &mut node_of)?;
    Ok(Candidates {
        lower: lower.table.into_entries(),
        upper: upper.into_entries(),
    })
}

/// Both tables come with the choices of the maximiser that the lower one goes by, and with the replies of the minimiser
/// that the upper one goes by.
#[derive(Drop)]
pub(crate) struct Tables {
    pub lower: UnitTable,
    pub upper: UnitTable,
    pub choices: Vec<u32>,
    pub replies: Vec<u32>,
}

/// Finds the lower table and then the upper one, whose costs may be others.
pub(crate) fn find_tables(
    alloc: Global,
    lower_input: &Input<'_, '_>,
    upper_input: &Input<'_, '_>,
) -> Result<Tables, OutOfMemory>
    requires { upper_input.now.question.now ≡ lower_input.now.question.now }
    ensures lower { IfOk result (λ t. length t.lower ≡ states lower_input.now.question.now) }
    ensures upper { IfOk result (λ t. length t.upper ≡ states lower_input.now.question.now) }
    ensures choices { IfOk result (λ t. vec_len t.choices ≡ states lower_input.now.question.now) }
    ensures replies { IfOk result (λ t. vec_len t.replies ≡ states lower_input.now.question.now) }
{
    let states = lower_input.question.game().states() as usize;
    let mut replies = vec![in alloc; 0u32; states]?;
    let mut node_of = vec![in alloc; NONE; states]?;
    let lower = lower_bounds(alloc, lower_input, &mut replies, &mut node_of)?;
    let start = Start {
        values: &lower.values,
        planned: &lower.planned,
    };
    let upper = upper_table(alloc, upper_input, &start, &mut replies, &mut node_of)?;
    Ok(Tables {
        lower: lower.table,
        upper,
        choices: lower.planned,
        replies,
    })
}

/// Returns whether some value is neither 1 nor 0.
pub(crate) fn has_open(question: &Question, sure: &Marks, zero: &Marks) -> bool
    requires sure { length sure.now ≡ states question.now }
    requires zero { length zero.now ≡ states question.now }
{
    (0..question.game().states()).any(|state| is_open(sure, zero, state))
}

/// Returns the table with the unit where the value is 1, and 0 elsewhere.
fn known_table(alloc: Global, question: &Question, sure: &Marks) -> Result<UnitTable, OutOfMemory>
    requires { length sure.now ≡ states question.now }
    ensures { IfOk result (λ t. length t ≡ states question.now) }
{
    let mut table = UnitTable::zeros(alloc, question.game().states())?;
    for state in 0..question.game().states() {
        if sure.has(state) {
            table.set(state, u64::MAX);
        }
    }
    Ok(table)
}

/// The lower table comes with the maximiser's choices that it goes by, and with the values that it was rounded from, in
/// units.
#[derive(Drop)]
struct Lower {
    table: UnitTable,
    planned: Vec<u32>,
    values: Vec<f64>,
}

/// Finds the lower table, and the minimiser's best replies to it.
fn lower_bounds(
    alloc: Global,
    input: &Input<'_, '_>,
    replies: &mut [u32],
    node_of: &mut [u32],
) -> Result<Lower, OutOfMemory>
    requires { length replies.old ≡ states input.now.question.now }
    ensures replies { length replies.new ≡ length replies.old }
    ensures table { IfOk result (λ l. length l.table ≡ states input.now.question.now) }
    ensures planned { IfOk result (λ l. vec_len l.planned ≡ states input.now.question.now) }
{
    let states = input.question.game().states() as usize;
    let mut table = known_table(alloc, input.question, input.sure)?;
    let mut planned = vec![in alloc; 0u32; states]?;
    let mut values = vec![in alloc; 0.0; states]?;
    for component in 0..input.components.count() {
        if is_open_component(input, component) {
            lower_component(
                alloc,
                input,
                component,
                &mut table,
                &mut planned,
                replies,
                &mut values,
                node_of,
            )?;
        }
    }
    Ok(Lower {
        table,
        planned,
        values,
    })
}

/// Finds the upper table over the replies, and again from the first component where these can be improved.
fn upper_table(
    alloc: Global,
    input: &Input<'_, '_>,
    start: &Start<'_>,
    replies: &mut [u32],
    node_of: &mut [u32],
) -> Result<UnitTable, OutOfMemory>
    requires replies { length replies.old ≡ states input.now.question.now }
    ensures table { IfOk result (λ t. length t ≡ states input.now.question.now) }
    ensures replies { length replies.new ≡ length replies.old }
{
    let mut table = known_table(alloc, input.question, input.sure)?;
    let mut shown = shown_values(alloc, &table)?;
    let mut first: u32 = 0;
    for _ in 0..TURNS {
        upper_turn(
            alloc, input, first, start, &mut table, &mut shown, replies, node_of,
        )?;
        let Some(changed) = improve_replies(input, &shown, replies) else {
            break;
        };
        first = changed;
    }
    Ok(table)
}

/// Returns the entries of a table as values.
fn shown_values(alloc: Global, table: &UnitTable) -> Result<Vec<f64>, OutOfMemory> {
    let entries = table.entries().iter();
    let values = entries
        .map(|entry| nearest_u64_to_f64(*entry))
        .collect(alloc)?;
    Ok(values)
}

/// Finds upper entries of all components from this one on, over these replies, and values to compare replies by.
fn upper_turn(
    alloc: Global,
    input: &Input<'_, '_>,
    first: u32,
    start: &Start<'_>,
    table: &mut UnitTable,
    shown: &mut [f64],
    replies: &mut [u32],
    node_of: &mut [u32],
) -> Result<(), OutOfMemory>
    requires table { length table.old ≡ states input.now.question.now }
    requires replies { length replies.old ≡ states input.now.question.now }
    ensures table { length table.new ≡ length table.old }
    ensures replies { length replies.new ≡ length replies.old }
{
    let end_components = find_end_components(alloc, input, replies)?;
    for component in first..input.components.count() {
        if is_open_component(input, component) {
            upper_component(
                alloc,
                input,
                component,
                &end_components,
                start,
                table,
                shown,
                replies,
                node_of,
            )?;
        }
    }
    Ok(())
}

/// Returns whether the states of a component have values that are neither 1 nor 0.
fn is_open_component(input: &Input<'_, '_>, component: u32) -> bool
    requires { component + 1 < length input.now.components.now.starts }
{
    match input.components.members(component).first().copied() {
        Some(state) => state < input.question.game().states()
            && is_open(input.sure, input.zero, state),
        None => false,
    }
}

/// Returns the values with which upper ones begin, in units. Each is the hint, or the value of the lower table if this
/// is greater.
fn first_values(mut values: Vec<f64>, hints: Option<&[f64]>) -> Vec<f64> {
    let Some(hints) = hints else {
        return values;
    };
    for (value, hint) in values.iter_mut().zip(hints) {
        if *hint * UNIT > *value {
            *value = (*hint * UNIT).min(UNIT);
        }
    }
    values
}
