//! This module solves a question of rewards with more and more places.

ghost use Rattle.std.specs.Prelude.{◌≡◌, ◌≤◌, IfOk, length};
ghost use Rattle.game_model.specs.Query.{states};
ghost use Rattle.predecessors.specs.Lists.{ArePredecessors};
ghost use Rattle.reward_solver.specs.Candidates.{AreCandidates};
ghost use Rattle.reward_units.specs.Units.{most_places};

use crate::costs::{complement, costs_of, infinite_states};
use crate::places::Places;
use game_model::{Marks, Question};
use game_outside::OutOfMemory;
use plan_solver::{CostlyTables, Costs, find_costly_bounds};
use predecessors::Predecessors;
use reward_check::turn;
use reward_units::{Rounding, rewards_in_units};
use rewards_reader::RewardTable;
use std::alloc::Global;

/// A question is solved at most this many times.
const TURNS: u32 = 6;

/// Both tables of rewards, in units of so many places, come with the rewards in these units and with the choices that
/// the tables go by. An entry of a state that is not finite means nothing.
#[derive(Drop)]
pub struct RewardCandidates {
    /// A unit is 10^-places of reward.
    pub places: u32,
    /// Each choice has this reward in units, rounded down, state by state.
    pub low: Vec<u64>,
    /// Each choice has this reward in units, rounded up, state by state.
    pub high: Vec<u64>,
    /// These are the lower values.
    pub lower: Vec<u64>,
    /// The maximiser plays these choices for the lower values.
    pub choices: Vec<u32>,
    /// These are the upper values. An entry of 10^15 units may mean that there is none.
    pub upper: Vec<u64>,
    /// The minimiser plays these replies for the upper values.
    pub replies: Vec<u32>,
}

/// Finds what a solver takes for bounds of expected rewards, over the predecessors in the game of a question and its
/// finite states. The only error is that memory ran out.
pub fn find_reward_bounds(
    alloc: Global,
    question: &Question,
    predecessors: &Predecessors,
    finite: &Marks,
    rewards: &RewardTable,
) -> Result<RewardCandidates, OutOfMemory>
    requires predecessors { ArePredecessors question.now.game predecessors.now }
    requires finite { length finite.now ≡ states question.now }
    ensures { IfOk result (λ c. AreCandidates question.now rewards.now c) }
{
    let turned = turn(alloc, question)?;
    let infinite = infinite_states(alloc, question, finite)?;
    let asked = Asked {
        question,
        turned: &turned,
        predecessors,
        finite,
        infinite: &infinite,
        rewards,
    };
    let mut places = Places::first();
    let mut found = asked.solve(alloc, places.now)?;
    for _ in 1..TURNS {
        let next = places.after(greatest(question, finite, &found.upper));
        if next == places {
            break;
        }
        found = asked.solve(alloc, next.now)?;
        places = next;
    }
    Ok(found)
}

/// A question of rewards comes with the same from the minimiser's side.
#[derive(Drop)]
struct Asked<'a, 'q> {
    question: &'a Question<'q>,
    turned: &'a Question<'q>,
    predecessors: &'a Predecessors,
    finite: &'a Marks,
    infinite: &'a Marks,
    rewards: &'a RewardTable,
    ghost same: { turned.now.game ≡ question.now.game },
    ghost lists: { ArePredecessors question.now.game predecessors.now },
    ghost all: { length finite.now ≡ states question.now },
    ghost others: { length infinite.now ≡ states question.now },
}

impl Asked<'_, '_> {
    /// Solves the question in units of so many places.
    fn solve(&self, alloc: Global, places: u32) -> Result<RewardCandidates, OutOfMemory>
        requires { places ≤ most_places }
        ensures { IfOk result (λ c. AreCandidates self.now.question.now self.now.rewards.now c) }
    {
        let game = self.question.game();
        let low = rewards_in_units(alloc, game, self.rewards, places, Rounding::Down)?;
        let high = rewards_in_units(alloc, game, self.rewards, places, Rounding::Up)?;
        let most = costs_of(alloc, self.question, self.finite, &high)?;
        let least = costs_of(alloc, self.question, self.finite, &low)?;
        let costs = Costs {
            lower: &most,
            upper: &least,
        };
        let found = find_costly_bounds(
            alloc,
            self.turned,
            self.predecessors,
            self.infinite,
            costs,
        )?;
        let lower = complement(alloc, &found.upper)?;
        let upper = complement(alloc, &found.lower)?;
        Ok(RewardCandidates {
            places,
            low,
            high,
            lower,
            choices: found.replies,
            upper,
            replies: found.choices,
        })
    }
}

/// Returns the greatest entry of a finite state.
fn greatest(question: &Question, finite: &Marks, values: &[u64]) -> u64
    requires { length finite.now ≡ states question.now }
{
    let mut most = 0;
    for state in 0..question.game().states() {
        if finite.has(state) {
            most = most.max(values.get(state as usize).copied().unwrap_or(0));
        }
    }
    most
}
