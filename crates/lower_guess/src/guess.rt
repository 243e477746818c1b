//! This module makes the lower guess of a table.

ghost use Rattle.std.specs.Prelude.{◌≡◌, length, slice_index, IfOk};
ghost use Rattle.game_model.specs.Query.{states};
ghost use Rattle.game_model.specs.Dual.{IsZeroSet};
ghost use Rattle.game_model.specs.Ranks.{Ranked};
ghost use Rattle.game_model.specs.Rounded.{IsBelow};
ghost use Rattle.predecessors.specs.Lists.{ArePredecessors};
ghost use Rattle.rank_certificate.specs.Layers.{IsRankable};
ghost use Rattle.lower_guess.specs.LowerGuess.{excess, IsLowerGuess};
ghost use Rattle.game_model.specs.Bounds.{IsNear};

use crate::guesses::Guesses;
use game_model::{Marks, Question};
use game_outside::OutOfMemory;
use predecessors::Predecessors;
use rank_certificate::laws::ranked_is_near;
use rank_certificate::{RankPlan, find_ranks_over};
use std::alloc::Global;

/// This is a lower table in units, with the plan that proves it.
#[derive(Drop)]
pub struct LowerGuess {
    /// Each state has a lower bound.
    pub values: Vec<u64>,
    /// These choices and ranks prove the table.
    pub plan: RankPlan,
}

/// The last excess has this place.
pub const LAST_PLACE: u32 = 2;

/// Returns the lower guess of a table of values in units, which these choices and some ranks have to prove. The guess
/// is the first of 15 tables that any choices and ranks prove, with the plan of [`rank_certificate::rank_table`]. There
/// are five tables for each excess: 4, 2 and then 1 units. The first one has the unit at goals and 0 on the zero set.
/// Elsewhere it has the entry and the excess, but at most the unit. Each of the next four is the lesser of the one
/// before and of its down step. If no table can be ranked, the guess is the given one, with these choices and the ranks
/// of [`rank_certificate::find_ranks`].
///
/// The guess is nowhere below the table, and k-step values come as near to it as one likes. A table is refused without
/// a search for ranks if a state falls, which means that its down step is below its entry. For the first table of an
/// excess each state takes a step, and for a later one only the predecessors of the states that fell. The time is no
/// part of the contract. The only error is that memory ran out.
pub fn lower_guess<'a>(
    alloc: Global,
    question: &'a Question<'a>,
    zero: &'a Marks,
    base: &'a [u64],
    choices: &[Option<u32>],
) -> Result<LowerGuess, OutOfMemory>
    requires zero { IsZeroSet question.now zero.now }
    requires base { length base.now ≡ states question.now }
    requires choices { length choices.now ≡ states question.now }
    requires rankable { IsRankable question.now base.now choices.now }
    ensures guess { IfOk result (λ g. IsLowerGuess question.now zero.now base.now choices.now g.values.items
        g.plan.choices.items g.plan.ranks.items) }
    ensures ranked { IfOk result (λ g. Ranked question.now g.values.items g.plan.choices.items g.plan.ranks.items) }
    ensures length { IfOk result (λ g. length g.values.items ≡ states question.now) }
    ensures above { IfOk result (λ g. IsBelow question.now (slice_index base.now) (slice_index g.values.items)) }
    ensures near { IfOk result (λ g. IsNear question.now (slice_index g.values.items)) }
{
    let predecessors = Predecessors::of_game(alloc, question.game())?;
    lower_guess_over(alloc, question, zero, base, choices, &predecessors)
}

/// Returns the guess of [`lower_guess`] for a caller that has the lists of predecessors of the question's game. The
/// only error is that memory ran out.
pub fn lower_guess_over<'a>(
    alloc: Global,
    question: &'a Question<'a>,
    zero: &'a Marks,
    base: &'a [u64],
    choices: &[Option<u32>],
    predecessors: &Predecessors,
) -> Result<LowerGuess, OutOfMemory>
    requires zero { IsZeroSet question.now zero.now }
    requires base { length base.now ≡ states question.now }
    requires choices { length choices.now ≡ states question.now }
    requires rankable { IsRankable question.now base.now choices.now }
    requires lists { ArePredecessors question.now.game predecessors.now }
    ensures guess { IfOk result (λ g. IsLowerGuess question.now zero.now base.now choices.now g.values.items
        g.plan.choices.items g.plan.ranks.items) }
    ensures ranked { IfOk result (λ g. Ranked question.now g.values.items g.plan.choices.items g.plan.ranks.items) }
    ensures length { IfOk result (λ g. length g.values.items ≡ states question.now) }
    ensures above { IfOk result (λ g. IsBelow question.now (slice_index base.now) (slice_index g.values.items)) }
    ensures near { IfOk result (λ g. IsNear question.now (slice_index g.values.items)) }
{
    question.invariant();
    for place in 0..LAST_PLACE + 1 {
        let guesses = Guesses {
            question,
            zero,
            base,
            excess: excess_at(place),
            predecessors,
        };
        if let Some(found) = guesses.first_ranked(alloc)? {
            ranked_is_near(
                question,
                &found.values,
                &found.plan.choices,
                &found.plan.ranks,
            );
            return Ok(found);
        }
    }
    let ranks = find_ranks_over(alloc, question, base, choices, predecessors)?;
    ranked_is_near(question, base, choices, &ranks);
    Ok(LowerGuess {
        values: Vec::from_slice(alloc, base)?,
        plan: RankPlan {
            choices: Vec::from_slice(alloc, choices)?,
            ranks,
        },
    })
}

/// Returns the excess at a place: 4, 2 and 1 units.
fn excess_at(place: u32) -> u64
    ensures { result ≡ excess place }
{
    match place {
        0 => 4,
        1 => 2,
        _ => 1,
    }
}
