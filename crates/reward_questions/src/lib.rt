//! This crate solves a question of expected rewards: a solver that nobody trusts finds its values, and proved checks
//! accept them.
//!
//! [`solve_reward_question`] finds the states at which what is expected is infinite, has `reward_solver` find tables
//! for the others, and hands out the certificate that `solved_rewards` makes of these. Its values are sound at every
//! state, whatever the solver found.
#![tactic(auto)]

ghost use Rattle.std.specs.Prelude.{◌≡◌, ℕ, ◌<◌, false, IfOk};
ghost use Rattle.game_model.specs.Query.{states, is_dead};
ghost use Rattle.reward_questions.specs.Solved.{IsSolvedQuestion};

use away_ranks::away_ranks;
use game_model::Question;
use game_outside::OutOfMemory;
use predecessors::Predecessors;
use reward_solver::find_reward_bounds;
use rewards_reader::RewardTable;
use solved_rewards::{AwayPlan, SolvedRewards, solve_rewards};
use std::alloc::Global;

/// Solves a question in which no state is dead, over rewards of its game. The certificate passes the check of an audit.
/// Its lower value is infinite exactly where the minimiser reaches no goal almost surely. How near its values are is no
/// part of the contract. The only error is that memory ran out.
pub fn solve_reward_question(
    alloc: Global,
    question: &Question,
    rewards: &RewardTable,
) -> Result<SolvedRewards, OutOfMemory>
    requires alive { (s : ℕ) → s < states question.now → is_dead question.now s ≡ false }
    ensures { IfOk result (λ solved. IsSolvedQuestion question.now rewards.now solved) }
{
    question.invariant();
    let predecessors = Predecessors::of_game(alloc, question.game())?;
    let away = away_ranks(alloc, question, &predecessors)?;
    let candidates = find_reward_bounds(alloc, question, &predecessors, &away.finite, rewards)?;
    let proved = AwayPlan {
        finite: &away.finite,
        choices: &away.choices,
        ranks: &away.ranks,
    };
    solve_rewards(alloc, question, &predecessors, proved, candidates)
}
