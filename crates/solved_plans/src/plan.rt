//! This module makes the plan that is certified.

ghost use Rattle.std.specs.Prelude.{IfOk};
ghost use Rattle.game_model.specs.Dual.{IsZeroSet};
ghost use Rattle.predecessors.specs.Lists.{ArePredecessors};
ghost use Rattle.almost_sure.specs.Values.{AreAlmostSure};
ghost use Rattle.solved_plans.specs.Bounds.{AreBoundsOf};
ghost use Rattle.solved_plans.specs.Plans.{IsSolvedPlan};

use crate::held::held_table;
use crate::reached::reached_table;
use game_model::{Marks, Question};
use game_outside::OutOfMemory;
use plan_text::Plan;
use predecessors::Predecessors;
use std::alloc::Global;

/// The tables of a solver give units for each state. A table that has another number of entries than there are states
/// counts as empty.
#[derive(Drop)]
pub struct Candidates {
    /// The solver takes these for lower bounds.
    pub lower: Vec<u64>,
    /// The solver takes these for upper bounds.
    pub upper: Vec<u64>,
}

/// Makes a plan of a question, over the predecessors in its game, its almost-sure states and its zero set. The plan
/// passes the checks of an audit, whatever the candidates are: its replies hold every strategy of the maximiser to the
/// upper table, and its choices reach the lower table, less any 1/m, against every strategy of the minimiser. The lower
/// bound is 1 exactly at the almost-sure states, and the upper one 0 exactly in the zero set.
///
/// Elsewhere the lower table is the candidate's, less than 1, if some choices and ranks prove the whole table, and it
/// is 0 otherwise. The upper table is the candidate's, from one unit to 1, if the whole table is inductive, and it is 1
/// otherwise. The choices and ranks are those of `rank_certificate::rank_table`. A state that needs no choice or reply
/// has none. The only error is that memory ran out.
pub fn certify(
    alloc: Global,
    question: &Question,
    predecessors: &Predecessors,
    sure: &Marks,
    zero: &Marks,
    candidates: &Candidates,
) -> Result<Plan, OutOfMemory>
    requires lists { ArePredecessors question.now.game predecessors.now }
    requires sure { AreAlmostSure question.now sure.now }
    requires zero { IsZeroSet question.now zero.now }
    ensures plan { IfOk result (λ plan. IsSolvedPlan question.now plan) }
    ensures bounds { IfOk result (λ plan. AreBoundsOf question.now candidates.now.lower.items candidates.now.upper.items
        plan.lower.items plan.upper.items) }
{
    question.invariant();
    let reached = reached_table(alloc, question, predecessors, sure, zero, &candidates.lower)?;
    let held = held_table(alloc, question, sure, zero, &candidates.upper)?;
    Ok(Plan {
        lower: reached.values,
        choices: reached.plan.choices,
        ranks: reached.plan.ranks,
        upper: held.values,
        replies: held.replies,
    })
}
