//! This crate finds the states of value 0: those from which the minimiser keeps the maximiser from the goals for ever,
//! with probability 1 (Prob0 of Baier and Katoen 2008, chapter 10, for two players).
//!
//! [`zero_set`] gives them. [`zero_set_over`] gives them from lists of predecessors that the caller has.
//!
//! They are the complement of the attractor of the goals among the states that are not dead: a goal is reached with a
//! positive probability from each member of it, and from no other state.
#![tactic(auto)]

ghost use Rattle.std.specs.Prelude.{IfOk};
ghost use Rattle.game_model.specs.Dual.{IsZeroSet};
ghost use Rattle.predecessors.specs.Lists.{ArePredecessors};

use attractors::{ExcludedDead, attractor_of, complement};
use game_model::{Marks, Question};
use game_outside::OutOfMemory;
use predecessors::Predecessors;
use std::alloc::Global;

/// Returns the states whose value is 0 at every horizon. The only error is that memory ran out.
pub fn zero_set(alloc: Global, question: &Question) -> Result<Marks, OutOfMemory>
    ensures { IfOk result (λ marks. IsZeroSet question.now marks) }
{
    let predecessors = Predecessors::of_game(alloc, question.game())?;
    zero_set_over(alloc, question, &predecessors)
}

/// Returns the states whose value is 0 at every horizon, from the predecessors in the question's game (Baier and Katoen
/// 2008, chapter 10, Prob0). The only error is that memory ran out.
pub fn zero_set_over(
    alloc: Global,
    question: &Question,
    predecessors: &Predecessors,
) -> Result<Marks, OutOfMemory>
    requires { ArePredecessors question.now.game predecessors.now }
    ensures { IfOk result (λ marks. IsZeroSet question.now marks) }
{
    question.invariant();
    let reached = attractor_of(alloc, question, predecessors, &ExcludedDead {})?;
    Ok(Marks::of_list(complement(alloc, &reached)?))
}
