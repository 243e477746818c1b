//! This module has the lower table, with choices and ranks that prove it.

ghost use Rattle.std.specs.Prelude.{◌≡◌, [], length, IfOk};
ghost use Rattle.game_model.specs.Query.{states};
ghost use Rattle.game_model.specs.Dual.{IsZeroSet};
ghost use Rattle.game_model.specs.Ranks.{Ranked};
ghost use Rattle.game_model.specs.Tables.{IsTable};
ghost use Rattle.predecessors.specs.Lists.{ArePredecessors};
ghost use Rattle.rank_certificate.specs.Carrying.{IsLayeredPlan};
ghost use Rattle.almost_sure.specs.Values.{AreAlmostSure};
ghost use Rattle.solved_plans.specs.Bounds.{lower_bound, counted, IsLowerOf};

use crate::laws::almost_sure_states_are_reached;
use crate::tables::{counted_of, lower_table};
use game_model::{Marks, Question};
use game_outside::OutOfMemory;
use predecessors::Predecessors;
use rank_certificate::{RankPlan, rank_table_over};
use std::alloc::Global;

/// A lower table comes with the plan that proves it.
#[derive(Drop)]
pub struct Reached {
    /// This is the table.
    pub values: Vec<u64>,
    /// This is its plan.
    pub plan: RankPlan,
}

/// Returns the lower table of a candidate if some choices and ranks prove it, and else that of an empty candidate. The
/// only error is that memory ran out.
pub fn reached_table(
    alloc: Global,
    question: &Question,
    predecessors: &Predecessors,
    sure: &Marks,
    zero: &Marks,
    candidate: &[u64],
) -> Result<Reached, OutOfMemory>
    requires lists { ArePredecessors question.now.game predecessors.now }
    requires sure { AreAlmostSure question.now sure.now }
    requires zero { IsZeroSet question.now zero.now }
    ensures layered { IfOk result (λ reached. IsLayeredPlan question.now reached.values.items reached.plan.choices.items
        reached.plan.ranks.items) }
    ensures ranked { IfOk result (λ reached. Ranked question.now reached.values.items reached.plan.choices.items
        reached.plan.ranks.items) }
    ensures many { IfOk result (λ reached. length reached.values.items ≡ states question.now) }
    ensures values { IfOk result (λ reached. IsLowerOf question.now sure.now zero.now
        (counted (states question.now) candidate.now) reached.values.items) }
{
    let values = lower_table(alloc, question, sure, zero, counted_of(question, candidate))?;
    if let Some(plan) = rank_table_over(alloc, question, &values, predecessors)? {
        return Ok(Reached { values, plan });
    }
    weakest_table(alloc, question, predecessors, sure, zero)
}

// Returns the lower table of an empty candidate. Choices and ranks prove it, because the almost-sure states have a
// plan.
fn weakest_table(
    alloc: Global,
    question: &Question,
    predecessors: &Predecessors,
    sure: &Marks,
    zero: &Marks,
) -> Result<Reached, OutOfMemory>
    requires lists { ArePredecessors question.now.game predecessors.now }
    requires sure { AreAlmostSure question.now sure.now }
    requires zero { IsZeroSet question.now zero.now }
    ensures layered { IfOk result (λ reached. IsLayeredPlan question.now reached.values.items reached.plan.choices.items
        reached.plan.ranks.items) }
    ensures ranked { IfOk result (λ reached. Ranked question.now reached.values.items reached.plan.choices.items
        reached.plan.ranks.items) }
    ensures values { IfOk result (λ reached. IsTable question.now
        (lower_bound sure.now zero.now []) reached.values.items) }
{
    let values = lower_table(alloc, question, sure, zero, &[])?;
    almost_sure_states_are_reached(question, sure, zero, &values);
    match rank_table_over(alloc, question, &values, predecessors)? {
        Some(plan) => Ok(Reached { values, plan }),
        None => unreachable!(),
    }
}
