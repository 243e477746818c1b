//! This module loads what a command with rewards names.

ghost use Rattle.std.specs.Prelude.{◌≡◌, IfOk, IsErrOf, Err, true};
ghost use Rattle.command_words.specs.Words.{asked_of_words};
ghost use Rattle.reward_refusals.specs.declared.refusal.RewardRefusal.{RewardRefusal};
ghost use Rattle.reward_inputs.specs.Loading.{RewardLoadingLeaves, RewardEndsCaused};
ghost use Rattle.reward_inputs.specs.Questions.{LacksRewards, ReadsRewards, ReadsRewardsAs};
ghost use Rattle.reward_inputs.specs.Said.{Refuses};

use crate::end::RewardEnd;
use crate::load::{load_any_formula, load_first, load_rewards};
use crate::loaded::LoadedRewards;
use command_words::AskedWords;
use game_outside::Shelf;
use std::alloc::Global;

/// Loads what a command with rewards names, in the order of the fields. The first text that is refused, or can't be
/// read, ends it.
pub fn load_reward_model<H: Shelf>(
    alloc: Global,
    shelf: &mut H,
    asked: &AskedWords<'_>,
    rewards: &str,
) -> Result<LoadedRewards, RewardEnd>
    ensures reads { IfOk result (λ loaded. ReadsRewards (H.held shelf.old) (asked_of_words asked.now) rewards.now
        loaded) }
    ensures refused { (refusal : RewardRefusal) → result ≡ Err (RewardEnd.Refused refusal)
        → ReadsRewardsAs (H.held shelf.old) (asked_of_words asked.now) rewards.now (Refuses refusal) }
    ensures steadily { IsErrOf result RewardEnd.ReadFault → H.steady shelf.old ≡ true
        → LacksRewards (H.held shelf.old) (asked_of_words asked.now) rewards.now }
    ensures shelf { RewardLoadingLeaves H.held H.steady H.faults H.taken shelf.old shelf.new result }
    ensures caused { RewardEndsCaused result }
{
    let model = load_first(alloc, shelf, asked)?;
    let rewards = load_rewards(alloc, shelf, rewards, &model.game)?;
    let formula = load_any_formula(alloc, asked.formula)?;
    Ok(LoadedRewards {
        game: model.game,
        labels: model.labels,
        owners: model.owners,
        rewards,
        formula,
    })
}
