//! This module finds better replies of the minimiser over upper values.

ghost use Rattle.std.specs.Prelude.{◌≡◌, ◌<◌, length};
ghost use Rattle.game_model.specs.Query.{states};

use crate::input::{Input, is_open};
use crate::lower::note;
use crate::weights::{float_of, is_narrow};
use game_model::{Question, Row, Side};
use std::num::nearest_u64_to_f64;
use table_rounding::cost_of;

/// A reply is exchanged for one that gives less than the value of its state by more than this many units.
const GAIN: f64 = 4.0;

/// Exchanges replies for better ones. Returns the first component with an exchange, or nothing if there is none.
pub(crate) fn improve_replies(
    input: &Input<'_, '_>,
    upper: &[f64],
    replies: &mut [u32],
) -> Option<u32>
    ensures { length replies.new ≡ length replies.old }
{
    let mut first: Option<u32> = None;
    for state in 0..input.question.game().states() {
        if is_improved(input, upper, replies, state) {
            let component = input.components.component_of(state);
            first = match first {
                Some(earlier) => Some(earlier.min(component)),
                None => Some(component),
            };
        }
    }
    first
}

/// Exchanges the reply of a state for a better one, and returns whether there is one.
fn is_improved(input: &Input<'_, '_>, upper: &[f64], replies: &mut [u32], state: u32) -> bool
    requires state { state < states input.now.question.now }
    ensures { length replies.new ≡ length replies.old }
{
    if input.question.game().choices_of(state) == 1
        || input.question.side(state) == Side::Max
        || !is_open(input.sure, input.zero, state)
    {
        return false;
    }
    let own = value_at(upper, state);
    let best = best_reply(input, upper, state);
    if !(best.value < own - GAIN) || replies.get(state as usize).copied() == Some(best.choice) {
        return false;
    }
    note(replies, state, best.choice);
    true
}

/// A choice comes with what it gives.
#[derive(Clone, Copy)]
struct Reply {
    choice: u32,
    value: f64,
}

/// Returns the choice that gives the least.
fn best_reply(input: &Input<'_, '_>, upper: &[f64], state: u32) -> Reply
    requires { state < states input.now.question.now }
{
    let game = input.question.game();
    let row = input.question.row(state);
    row.invariant();
    let mut best = Reply {
        choice: 0,
        value: value_of(&row, upper, 0, cost_of(Some(input.costs), game, state, 0)),
    };
    for choice in 1..row.choices() {
        let cost = cost_of(Some(input.costs), game, state, choice);
        let value = value_of(&row, upper, choice, cost);
        if value < best.value {
            best = Reply { choice, value };
        }
    }
    best
}

/// Returns what a choice of this cost gives by these values.
fn value_of(row: &Row<'_>, values: &[f64], choice: u32, cost: u64) -> f64
    requires { choice < length row.now }
{
    let mut sum = 0.0;
    if is_narrow(row.total(choice)) {
        let weights = row.narrow_weights(choice);
        for (to, weight) in row.successors(choice).iter().zip(weights) {
            sum += nearest_u64_to_f64(*weight) * value_at(values, *to);
        }
    } else {
        for place in 0..row.edge_count(choice) {
            let edge = row.edge(choice, place);
            sum += float_of(edge.weight) * value_at(values, edge.to);
        }
    }
    sum / float_of(row.total(choice)) - nearest_u64_to_f64(cost)
}

/// Returns the value of a state.
fn value_at(values: &[f64], state: u32) -> f64 {
    values.get(state as usize).copied().unwrap_or(0.0)
}

/// Returns whether the side of a state may take a choice. The minimiser plays its reply.
pub(crate) fn is_played(question: &Question, replies: &[u32], state: u32, choice: u32) -> bool
    requires { state < states question.now }
{
    question.side(state) == Side::Max || replies.get(state as usize).copied() == Some(choice)
}
