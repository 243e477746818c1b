//! This module chooses the better tables of a plan and of the plan that rounds found.

ghost use Rattle.std.specs.Prelude.{◌≡◌, length};
ghost use Rattle.game_model.specs.Query.{states};

use crate::wide::{entry_of, is_open};
use formula_reader::Bound;
use game_model::{Marks, Question, UNIT};
use game_outside::OutOfMemory;
use plan_text::Plan;
use solved_plans::Candidates;
use std::alloc::Global;

/// Returns the lesser upper entry of each state, and the lower table with the greater sum over the states of `starts`
/// that the bounds of the plan leave open. At a tie this is the plan's. The lower table that rounds found has the unit
/// at the almost-sure states, as that of the plan has.
pub(crate) fn better_of(
    alloc: Global,
    question: &Question,
    sure: &Marks,
    bound: &Bound,
    starts: &[u32],
    plan: &Plan,
    found: &Plan,
) -> Result<Candidates, OutOfMemory>
    requires { length sure.now ≡ states question.now }
{
    let upper = lesser(alloc, question, &plan.upper, &found.upper)?;
    let raised = raised(alloc, question, sure, &found.lower)?;
    let own = sum_of(bound, starts, plan, &plan.lower);
    if own < sum_of(bound, starts, plan, &raised) {
        return Ok(Candidates {
            lower: raised,
            upper,
        });
    }
    let lower = plan.lower.to_vec(alloc)?;
    Ok(Candidates { lower, upper })
}

// Returns the lesser entry of two tables for each state.
fn lesser(
    alloc: Global,
    question: &Question,
    one: &[u64],
    other: &[u64],
) -> Result<Vec<u64>, OutOfMemory> {
    let table = (0..question.game().states())
        .map(|state| entry_of(one, state).min(entry_of(other, state)))
        .collect::<Vec<u64>>(alloc)?;
    Ok(table)
}

// Returns a table with the unit at these states.
fn raised(
    alloc: Global,
    question: &Question,
    sure: &Marks,
    table: &[u64],
) -> Result<Vec<u64>, OutOfMemory>
    requires { length sure.now ≡ states question.now }
{
    let states = question.game().states();
    let mut raised = Vec::with_capacity(alloc, states as usize)?;
    for state in 0..states {
        let entry = if sure.has(state) {
            UNIT
        } else {
            entry_of(table, state)
        };
        raised.push(entry)?;
    }
    Ok(raised)
}

// Returns the sum of a table over the states of `starts` that the bounds of a plan leave open.
fn sum_of(bound: &Bound, starts: &[u32], plan: &Plan, table: &[u64]) -> u128 {
    starts
        .iter()
        .filter(|state| is_open(bound, plan, **state))
        .fold(0, |sum: u128, state| {
            sum.saturating_add(u128::from(entry_of(table, *state)))
        })
}
