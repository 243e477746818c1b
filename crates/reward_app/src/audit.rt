//! This module answers `audit` on rewards: it checks a certificate of any origin for a question.

ghost use Rattle.std.specs.Prelude.{Ok};
ghost use Rattle.reward_words.specs.Words.{OfAuditReward, audit_reward_of};
ghost use Rattle.reward_inputs.specs.Loading.{RewardLoadingLeaves};
ghost use Rattle.reward_inputs.specs.Questions.{ReadsRewards};
ghost use Rattle.reward_app.specs.inside.Answers.{IsRewardAnswered};

use crate::certificate::load_certificate;
use crate::report::report_on;
use game_outside::Shelf;
use output::Answer;
use reward_inputs::{LoadedRewards, RewardEnd, pose_rewards};
use reward_words::AuditRewardWords;
use std::alloc::Global;
use verdicts::How;

/// Answers `audit` with its report on what was loaded, from the certificate, which is read after it, or says why there
/// is none.
pub fn audit_loaded<H: Shelf>(
    alloc: Global,
    loaded: &LoadedRewards,
    audit: &AuditRewardWords<'_>,
    shelf: &mut H,
) -> Result<Answer, RewardEnd>
    ensures { (before : H)
        → ReadsRewards (H.held before) (audit_reward_of audit.now).asked audit.now.rewards.now loaded.now
        → RewardLoadingLeaves H.held H.steady H.faults H.taken before shelf.old (Ok loaded.now)
        → IsRewardAnswered H.held H.steady H.faults H.taken (OfAuditReward (audit_reward_of audit.now)) before
        shelf.new result }
{
    let problem = pose_rewards(alloc, loaded)?;
    let rewards = &loaded.rewards;
    let formula = problem.formula;
    let made = load_certificate(alloc, shelf, &problem.question, rewards, audit.certificate)?;
    let answer = report_on(
        alloc,
        &problem.question,
        rewards,
        &problem.initial,
        &formula.bound,
        How::Audited,
        &made,
    )?;
    Ok(answer)
}
