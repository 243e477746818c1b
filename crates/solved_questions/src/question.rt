//! This module finds the plan of a question.

ghost use Rattle.std.specs.Prelude.{◌<◌, All, IfOk};
ghost use Rattle.game_model.specs.Query.{states};
ghost use Rattle.predecessors.specs.Lists.{ArePredecessors};
ghost use Rattle.solved_plans.specs.Plans.{IsSolvedPlan};

use crate::better::better_of;
use crate::wide::{are_close, rounds_for};
use almost_sure::almost_sure_over;
use bracket_engine::bracket_for;
use formula_reader::Bound;
use game_model::Question;
use game_outside::{Gate, OutOfMemory};
use plan_solver::find_bounds;
use plan_text::Plan;
use predecessors::Predecessors;
use solved_plans::certify;
use std::alloc::Global;
use std::thread::Threads;
use zero_sets::zero_set_over;

/// Finds a plan of a question, over the predecessors in its game, that passes the checks of an audit and is sound. The
/// lower bound is 1 exactly at the almost-sure states, and the upper one 0 exactly in the zero set. Values to begin
/// with, one for each state, are only hints.
///
/// A state of `starts` is asked about if its bounds do not settle the bound. If they are far apart at one such state,
/// one worker makes rounds and passes the gate before each state. Then each side takes the better table: the upper one
/// state by state, the lower one by its sum over these states. The only error is that memory ran out.
pub fn solve_question<R: Threads + Sync, G: Gate + Sync>(
    rt: &R,
    alloc: Global,
    question: &Question,
    predecessors: &Predecessors,
    hints: Option<&[f64]>,
    bound: Bound,
    starts: &[u32],
    gate: &G,
) -> Result<Plan, OutOfMemory>
    requires lists { ArePredecessors question.now.game predecessors.now }
    requires starts { All (λ s. s < states question.now) starts.now }
    ensures { IfOk result (λ plan. IsSolvedPlan question.now plan) }
{
    let zero = zero_set_over(alloc, question, predecessors)?;
    let sure = almost_sure_over(alloc, question, predecessors, &zero)?;
    let candidates = find_bounds(alloc, question, predecessors, &sure, &zero, hints)?;
    let plan = certify(alloc, question, predecessors, &sure, &zero, &candidates)?;
    drop(candidates);
    if are_close(&bound, starts, &plan) {
        return Ok(plan);
    }
    let rounds = rounds_for(question.game());
    let found = bracket_for(
        rt,
        alloc,
        question,
        predecessors,
        Bound::AskMax,
        starts,
        rounds,
        1,
        gate,
    )?;
    let better = better_of(
        alloc,
        question,
        &sure,
        &bound,
        starts,
        &plan,
        &found.bracket.plan,
    )?;
    // The ranks of a run of rounds prove a better lower table. If the checks refused it all the same, the plan would be
    // worse than the first one.
    drop(plan);
    drop(found);
    certify(alloc, question, predecessors, &sure, &zero, &better)
}
