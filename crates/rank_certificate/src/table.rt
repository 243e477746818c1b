//! This module finds the plan of choices and ranks that proves values.

ghost use Rattle.std.specs.Prelude.{◌≡◌, ℕ, ◌<◌, ◌≤◌, ◌↔◌, length, slice_index, slice_index_or, All, Some, None, IfOk, IfSome, IsTrue, MatchOption, option_copied};
ghost use Rattle.game_model.specs.Query.{states};
ghost use Rattle.game_model.specs.Limits.{unit};
ghost use Rattle.game_model.specs.Ranks.{Ranked};
ghost use Rattle.predecessors.specs.Lists.{ArePredecessors};
ghost use Rattle.rank_certificate.specs.Carrying.{AreOfStates, CanBeRanked, IsLayeredPlan, Stands};
ghost use Rattle.rank_certificate.specs.inside.RankLayers.{IsFinishedGrowth};
ghost use Rattle.rank_certificate.specs.inside.OfAsked.{IsFinishedGrowthIn};

use crate::asked::Asked;
use crate::check::first_over;
use crate::layers::RankLayers;
use fixed_bellman::is_given;
use game_model::{Question, UNIT};
use game_outside::OutOfMemory;
use predecessors::Predecessors;
use std::alloc::Global;

/// A plan has a choice, if one is needed, and a rank for each state.
#[derive(Drop)]
pub struct RankPlan {
    /// Each state of the maximiser that has a positive value and is no goal has a choice. Other states have none.
    pub choices: Vec<Option<u32>>,
    /// Each state has a rank.
    pub ranks: Vec<u32>,
}

/// Returns the plan that proves values in units ([`crate::check_ranks`]), with the least ranks. It returns none exactly
/// if no choices and ranks prove them. A rank is 0 at goals, dead states and states of value 0. Elsewhere it is the
/// least number from 1 up such that some choice of the maximiser, or every choice of the minimiser, gives at least the
/// value and has a successor of greater value, or one of equal value and smaller rank. The maximiser takes the first
/// such choice there, and has none elsewhere.
///
/// A state whose down step is below its value refuses the values at once. If there is no such state, the search goes
/// backward from the states of rank 0: it looks at a state again only when a successor got a rank, or a large part of
/// all states did. The time is no part of the contract. The only error is that memory ran out.
pub fn rank_table(
    alloc: Global,
    question: &Question,
    values: &[u64],
) -> Result<Option<RankPlan>, OutOfMemory>
    requires { length values.now ≡ states question.now }
    ensures found { IfOk result (λ found. MatchOption found (¬ CanBeRanked question.now values.now)
        (λ plan. IsLayeredPlan question.now values.now plan.choices.items plan.ranks.items)) }
    ensures ranked { IfOk result (λ found. IfSome found (λ plan.
        Ranked question.now values.now plan.choices.items plan.ranks.items)) }
{
    let predecessors = Predecessors::of_game(alloc, question.game())?;
    rank_table_over(alloc, question, values, &predecessors)
}

/// Returns the plan of [`rank_table`] for a caller that has the lists of predecessors of the question's game. The only
/// error is that memory ran out.
pub fn rank_table_over(
    alloc: Global,
    question: &Question,
    values: &[u64],
    predecessors: &Predecessors,
) -> Result<Option<RankPlan>, OutOfMemory>
    requires values { length values.now ≡ states question.now }
    requires lists { ArePredecessors question.now.game predecessors.now }
    ensures found { IfOk result (λ found. MatchOption found (¬ CanBeRanked question.now values.now)
        (λ plan. IsLayeredPlan question.now values.now plan.choices.items plan.ranks.items)) }
    ensures ranked { IfOk result (λ found. IfSome found (λ plan.
        Ranked question.now values.now plan.choices.items plan.ranks.items)) }
{
    question.invariant();
    if let Some(_over) = first_over(values) {
        return Ok(None);
    }
    if !all_stand(question, values) {
        return Ok(None);
    }
    rank_standing(alloc, question, values, predecessors)
}

/// Returns the plan of [`rank_table_over`] for a caller that knows that no state refuses the values at once: a goal has
/// the unit, and no down step is below its value. The only error is that memory ran out.
pub fn rank_standing(
    alloc: Global,
    question: &Question,
    values: &[u64],
    predecessors: &Predecessors,
) -> Result<Option<RankPlan>, OutOfMemory>
    requires values { length values.now ≡ states question.now }
    requires units { All (λ v. v ≤ unit) values.now }
    requires lists { ArePredecessors question.now.game predecessors.now }
    requires stand { (s : ℕ) → s < states question.now → Stands question.now (slice_index values.now) s }
    ensures found { IfOk result (λ found. MatchOption found (¬ CanBeRanked question.now values.now)
        (λ plan. IsLayeredPlan question.now values.now plan.choices.items plan.ranks.items)) }
    ensures ranked { IfOk result (λ found. IfSome found (λ plan.
        Ranked question.now values.now plan.choices.items plan.ranks.items)) }
{
    question.invariant();
    let layers = finished_growth(alloc, question, values, None, predecessors)?;
    let Some(ranks) = all_ranks(alloc, &layers.ranks)? else {
        return Ok(None);
    };
    Ok(Some(RankPlan {
        choices: layers.choices,
        ranks,
    }))
}

/// Finds the ranks of all layers, and the choices for them. If choices are given, it takes only these.
pub fn finished_growth(
    alloc: Global,
    question: &Question,
    values: &[u64],
    only: Option<&[Option<u32>]>,
    predecessors: &Predecessors,
) -> Result<RankLayers, OutOfMemory>
    requires values { length values.now ≡ states question.now }
    requires units { All (λ v. v ≤ unit) values.now }
    requires only { AreOfStates question.now (option_copied only) }
    requires lists { ArePredecessors question.now.game predecessors.now }
    ensures { IfOk result (λ g. IsFinishedGrowth question.now (slice_index values.now)
        (option_copied only.entry) g.ranks.items g.choices.items) }
{
    question.invariant();
    let asked = Asked {
        question,
        values,
        only,
        predecessors,
    };
    all_layers(alloc, &asked)
}

/// Finds the ranks of all layers, and the choices for them.
fn all_layers(alloc: Global, asked: &Asked<'_>) -> Result<RankLayers, OutOfMemory>
    ensures { IfOk result (λ g. IsFinishedGrowthIn asked.now g) }
{
    let mut layers = RankLayers::of_unneeded(alloc, asked)?;
    let mut begin = layers.order.len();
    layers.look_at_all(asked, 0)?;
    let mut level: u32 = 1;
    while begin < layers.order.len() {
        let end = layers.order.len();
        layers.advance(asked, level, begin, end)?;
        begin = end;
        level += 1;
    }
    Ok(layers)
}

/// Returns the ranks as numbers, or none if a state has no rank.
pub fn all_ranks(alloc: Global, ranks: &[Option<u32>]) -> Result<Option<Vec<u32>>, OutOfMemory>
    ensures { IfOk result (λ found. MatchOption found ((s : ℕ) × (s < length ranks.now)
        × (slice_index_or ranks.now s None ≡ None))
        (λ numbers. (length numbers.items ≡ length ranks.now)
        × ((s : ℕ) → s < length ranks.now
        → slice_index_or ranks.now s None ≡ Some (slice_index numbers.items s)))) }
{
    let mut numbers = Vec::with_capacity(alloc, ranks.len())?;
    for rank in ranks {
        let Some(rank) = *rank else {
            return Ok(None);
        };
        numbers.push(rank)?;
    }
    Ok(Some(numbers))
}

/// Returns whether no state refuses the values at once.
fn all_stand(question: &Question, values: &[u64]) -> bool
    requires values { length values.now ≡ states question.now }
    requires units { All (λ v. v ≤ unit) values.now }
    ensures { IsTrue result ↔ ((s : ℕ) → s < states question.now → Stands question.now (slice_index values.now) s) }
{
    for state in 0..question.game().states() {
        if !stands(question, values, state) {
            return false;
        }
    }
    true
}

/// Returns whether a state does not refuse the values at once.
fn stands(question: &Question, values: &[u64], state: u32) -> bool
    requires values { length values.now ≡ states question.now }
    requires units { All (λ v. v ≤ unit) values.now }
    requires state { state < states question.now }
    ensures { IsTrue result ↔ Stands question.now (slice_index values.now) state }
{
    if question.is_goal(state) {
        return values[state as usize] == UNIT;
    }
    is_given(question, state, values)
}
