//! This crate finds the finite states of a question of rewards: those from which the minimiser reaches a goal almost
//! surely, whatever the maximiser does. From each other state what is expected is infinite, and choices of the
//! maximiser and ranks prove it (`specs/Tables.antt` of `expected_rewards`, `AreAwayRanks`).
//!
//! [`away_ranks`] finds both. It takes away, round by round, the states from which a goal is not reached almost surely,
//! and keeps the order in which they go (de Alfaro, Henzinger and Kupferman, Concurrent reachability games, FOCS 1998).
//!
//! First a state lingers. The goals attract states backward, by choices whose successors have not gone: a state of the
//! minimiser joins by one such choice, and a state of the maximiser when each of its choices is one. The states that do
//! not join go, all with one rank. Then states sink, one after another: a state of the maximiser goes when some choice
//! has a successor that has gone, and a state of the minimiser when each of its choices does. Each gets a rank above
//! all before. If no state lingers, the states that are left are the finite ones.
//!
//! The time is linear in the edges for each round, and for the states that sink in all rounds together. No contract
//! states it.
#![tactic(auto)]

ghost use Rattle.std.specs.Prelude.{◌≡◌, ℕ, ◌<◌, ◌≤◌, false, length, slice_index, IfOk};
ghost use Rattle.game_model.specs.Query.{states, is_dead};
ghost use Rattle.predecessors.specs.Lists.{ArePredecessors};
ghost use Rattle.almost_sure.specs.Values.{AreAlmostSure};
ghost use Rattle.expected_rewards.specs.Turned.{turned};
ghost use Rattle.expected_rewards.specs.Tables.{is_finite, AreAwayRanks};
ghost use Rattle.away_ranks.specs.Choices.{HasChoices};

mod left;
mod search;

use attractors::complement;
use game_model::{Marks, Question};
use game_outside::OutOfMemory;
use predecessors::Predecessors;
use reward_check::turn;
use search::AwaySearch;
use std::alloc::Global;

/// These are the finite states of a question of rewards, and what proves that no other state is finite. A choice or a
/// rank of a finite state means nothing.
#[derive(Drop)]
pub struct Away {
    /// These states are finite.
    pub finite: Marks,
    /// The maximiser plays these choices at the other states.
    pub choices: Vec<Option<u32>>,
    /// The other states have these ranks.
    pub ranks: Vec<u32>,
}

/// Finds the finite states of a question of rewards in which no state is dead, from the predecessors in its game, and
/// choices and ranks that prove that no other state is finite. The only error is that memory ran out.
pub fn away_ranks(
    alloc: Global,
    question: &Question,
    predecessors: &Predecessors,
) -> Result<Away, OutOfMemory>
    requires lists { ArePredecessors question.now.game predecessors.now }
    requires alive { (s : ℕ) → s < states question.now → is_dead question.now s ≡ false }
    // They are exactly those from which the minimiser reaches a goal almost surely.
    ensures finite { IfOk result (λ away. AreAlmostSure (turned question.now) away.finite) }
    // The choices and the ranks lead away from the goals.
    ensures away { IfOk result (λ away.
        AreAwayRanks question.now away.finite away.choices.items (slice_index away.ranks.items)) }
    ensures choices { IfOk result (λ away. HasChoices question.now away.finite away.choices.items) }
    // No rank is greater than the number of states.
    ensures low { IfOk result (λ away. (s : ℕ) → s < states question.now → is_finite away.finite s ≡ false
        → slice_index away.ranks.items s ≤ states question.now) }
    ensures planned { IfOk result (λ away. length away.choices.items ≡ states question.now) }
    ensures ranked { IfOk result (λ away. length away.ranks.items ≡ states question.now) }
{
    question.invariant();
    let turned = turn(alloc, question)?;
    let mut search = AwaySearch::of_states(alloc, question)?;
    loop {
        search.sink(question, predecessors)?;
        if !search.linger(alloc, question, &turned, predecessors)? {
            break;
        }
    }
    let finite = complement(alloc, &search.gone)?;
    Ok(Away {
        finite: Marks::of_list(finite),
        choices: search.choices,
        ranks: search.ranks,
    })
}
