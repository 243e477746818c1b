//! This module reads and checks a certificate.

ghost use Rattle.std.specs.Prelude.{◌≡◌, ◌⊎◌, ℕ, ◌<◌, ◌≤◌, All, false, length, IfOk, IfErr};
ghost use Rattle.text_lines.specs.Limits.{most_bytes};
ghost use Rattle.game_model.specs.Limits.{unit};
ghost use Rattle.game_model.specs.Query.{states, is_dead};
ghost use Rattle.reward_units.specs.Rounded.{exact_in, paid_units, ArePaidUnits};
ghost use Rattle.reward_units.specs.Units.{most_places};
ghost use Rattle.reward_audit.specs.Audited.{audited_certificate};
ghost use Rattle.reward_audit.specs.Accepted.{IsAcceptedText, IsCertificateOf};
ghost use Rattle.reward_audit.specs.Refused.{IsRefused, IsOutOfMemory};

use crate::audited::AuditedRewards;
use crate::fault::RewardAuditFault;
use game_model::Question;
use game_outside::OutOfMemory;
use reward_check::check_rewards;
use reward_text::laws::reward_certificates_are_what_is_read;
use reward_text::{RewardPlan, read_reward_plan};
use reward_units::{Rounding, rewards_in_units};
use rewards_reader::RewardTable;
use std::alloc::Global;

/// Reads the certificate of a text for a question in which no state is dead, and checks it over rewards of its game. It
/// returns what the text says, if that is right, else the first fault: of the text, line by line, or of what it says,
/// part by part ([`reward_check::check_rewards`]). It can also fail because memory ran out.
pub fn audit_rewards(
    alloc: Global,
    question: &Question,
    rewards: &RewardTable,
    bytes: &[u8],
) -> Result<AuditedRewards, RewardAuditFault>
    requires alive { (s : ℕ) → s < states question.now → is_dead question.now s ≡ false }
    requires short { length bytes.now ≤ most_bytes }
    ensures accepted { IfOk result (λ audited. IsAcceptedText question.now (exact_in question.now.game rewards.now)
        bytes.now audited.plan (audited_certificate question.now audited)) }
    ensures units { IfOk result (λ audited. All (λ v. v ≤ unit) audited.plan.lower.items
        × All (λ v. v ≤ unit) audited.plan.upper.items) }
    ensures low { IfOk result (λ audited. ArePaidUnits question.now.game
        (paid_units Rounding.Down (exact_in question.now.game rewards.now) audited.plan.places) audited.low.items) }
    ensures high { IfOk result (λ audited. ArePaidUnits question.now.game
        (paid_units Rounding.Up (exact_in question.now.game rewards.now) audited.plan.places) audited.high.items) }
    ensures places { IfOk result (λ audited. audited.plan.places ≤ most_places) }
    ensures refused { IfErr result (λ fault. IsOutOfMemory fault
        ⊎ IsRefused question.now (exact_in question.now.game rewards.now) bytes.now fault) }
{
    // This call does nothing: it is a law.
    reward_certificates_are_what_is_read();
    let plan = read_reward_plan(alloc, bytes, question.game().states())?;
    let audited = with_rewards(alloc, question, rewards, plan)?;
    check_rewards(&audited.tables(question))?;
    Ok(audited)
}

/// Adds the rewards of a question to a plan, in its units.
fn with_rewards(
    alloc: Global,
    question: &Question,
    rewards: &RewardTable,
    plan: RewardPlan,
) -> Result<AuditedRewards, OutOfMemory>
    requires { plan.places ≤ most_places }
    ensures same { IfOk result (λ audited. audited.plan ≡ plan) }
    ensures certificate { IfOk result (λ audited. IsCertificateOf question.now
        (exact_in question.now.game rewards.now) plan (audited_certificate question.now audited)) }
    ensures low { IfOk result (λ audited. ArePaidUnits question.now.game
        (paid_units Rounding.Down (exact_in question.now.game rewards.now) plan.places) audited.low.items) }
    ensures high { IfOk result (λ audited. ArePaidUnits question.now.game
        (paid_units Rounding.Up (exact_in question.now.game rewards.now) plan.places) audited.high.items) }
{
    let game = question.game();
    let low = rewards_in_units(alloc, game, rewards, plan.places, Rounding::Down)?;
    let high = rewards_in_units(alloc, game, rewards, plan.places, Rounding::Up)?;
    Ok(AuditedRewards { plan, low, high })
}
