//! This module finds the layered ranks of values and choices.

ghost use Rattle.std.specs.Prelude.{◌≡◌, length, IfOk};
ghost use Rattle.game_model.specs.Query.{states};
ghost use Rattle.game_model.specs.Ranks.{Ranked};
ghost use Rattle.predecessors.specs.Lists.{ArePredecessors};
ghost use Rattle.rank_certificate.specs.Layers.{IsRankable, AreLayered};

use crate::table::{all_ranks, finished_growth};
use game_model::Question;
use game_outside::OutOfMemory;
use predecessors::Predecessors;
use std::alloc::Global;

/// Returns the layered ranks of values and choices that can be ranked. They prove the values with the choices
/// ([`crate::check_ranks`]). A rank is 0 at goals, dead states and states of value 0. Elsewhere it is the least number
/// from 1 up such that the choice of the maximiser, or every choice of the minimiser, has a successor of greater value,
/// or one of equal value and smaller rank. The search is that of [`crate::rank_table`], except that the maximiser may
/// take only these choices. The time is no part of the contract. The only error is that memory ran out.
pub fn find_ranks(
    alloc: Global,
    question: &Question,
    values: &[u64],
    choices: &[Option<u32>],
) -> Result<Vec<u32>, OutOfMemory>
    requires values { length values.now ≡ states question.now }
    requires choices { length choices.now ≡ states question.now }
    requires rankable { IsRankable question.now values.now choices.now }
    ensures ranked { IfOk result (λ ranks. Ranked question.now values.now choices.now ranks.items) }
    ensures layered { IfOk result (λ ranks. AreLayered question.now values.now choices.now ranks.items) }
{
    let predecessors = Predecessors::of_game(alloc, question.game())?;
    find_ranks_over(alloc, question, values, choices, &predecessors)
}

/// Returns the ranks of [`find_ranks`] for a caller that has the lists of predecessors of the question's game. The only
/// error is that memory ran out.
pub fn find_ranks_over(
    alloc: Global,
    question: &Question,
    values: &[u64],
    choices: &[Option<u32>],
    predecessors: &Predecessors,
) -> Result<Vec<u32>, OutOfMemory>
    requires values { length values.now ≡ states question.now }
    requires choices { length choices.now ≡ states question.now }
    requires rankable { IsRankable question.now values.now choices.now }
    requires lists { ArePredecessors question.now.game predecessors.now }
    ensures ranked { IfOk result (λ ranks. Ranked question.now values.now choices.now ranks.items) }
    ensures layered { IfOk result (λ ranks. AreLayered question.now values.now choices.now ranks.items) }
{
    question.invariant();
    let layers = finished_growth(alloc, question, values, Some(choices), predecessors)?;
    let ranks = all_ranks(alloc, &layers.ranks)?;
    Ok(ranks.unwrap())
}
