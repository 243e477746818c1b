//! This module reads and checks the certificate of an audit.

ghost use Rattle.std.specs.Prelude.{◌≡◌, ◌≤◌, None, Err, IfOk, IsErrOf, length, true};
ghost use Rattle.text_lines.specs.Limits.{most_bytes};
ghost use Rattle.reward_units.specs.Rounded.{exact_in};
ghost use Rattle.inputs.specs.Asks.{GivenTextWith};
ghost use Rattle.inputs.specs.Sources.{SourceWith, IfKnown};
ghost use Rattle.reward_audit.specs.declared.audited.AuditedRewards.{AuditedRewards as Made};
ghost use Rattle.reward_audit.specs.declared.fault.RewardAuditFault.{RewardAuditFault};
ghost use Rattle.reward_audit.specs.Accepted.{IsAcceptedText};
ghost use Rattle.reward_audit.specs.Audited.{audited_certificate};
ghost use Rattle.reward_audit.specs.Refused.{IsRefused, IsOutOfMemory};
ghost use Rattle.reward_refusals.specs.declared.refusal.RewardRefusal.{RewardRefusal};
ghost use Rattle.reward_inputs.specs.declared.end.RewardEnd.{RewardEnd};
ghost use Rattle.reward_inputs.specs.Loading.{AsksNothing, RewardEndsCaused, RewardLoadingLeaves};
ghost use Rattle.reward_app.specs.Reports.{RefusesOver};
ghost use Rattle.reward_app.specs.inside.Certified.{IsAlive, IsCertified, refusal_of};

use game_model::Question;
use game_outside::Shelf;
use inputs::load_text;
use output::Text;
use plan_text::PlanCause;
use reward_audit::{AuditedRewards, RewardAuditFault, audit_rewards};
use reward_inputs::RewardEnd;
use reward_refusals::RewardRefusal;
use rewards_reader::RewardTable;
use std::alloc::Global;

/// Reads the certificate of a file, if a question accepts it over rewards of its game.
pub fn load_certificate<H: Shelf>(
    alloc: Global,
    shelf: &mut H,
    question: &Question,
    rewards: &RewardTable,
    name: &str,
) -> Result<AuditedRewards, RewardEnd>
    requires { IsAlive question.now }
    ensures accepted { IfOk result (λ made. SourceWith (H.held shelf.old) name.now (λ source. GivenTextWith source
        (λ text. IsAcceptedText question.now (exact_in question.now.game rewards.now) text made.plan
        (audited_certificate question.now made)))) }
    ensures certified { IfOk result (λ made. IsCertified question.now rewards.now made) }
    ensures refused { (refusal : RewardRefusal) → result ≡ Err (RewardEnd.Refused refusal)
        → SourceWith (H.held shelf.old) name.now
        (λ source. RefusesOver question.now (exact_in question.now.game rewards.now) source refusal) }
    ensures shelf { RewardLoadingLeaves H.held H.steady H.faults H.taken shelf.old shelf.new result }
    ensures steadily { IsErrOf result RewardEnd.ReadFault → H.steady shelf.old ≡ true
        → IfKnown (H.held shelf.old) (λ held. held name.now ≡ None) }
    ensures caused { RewardEndsCaused result }
{
    let bytes = load_text(alloc, shelf, Text::Cert, name)?;
    certificate_in(alloc, question, rewards, &bytes)
}

// Reads a certificate, if a question accepts it.
fn certificate_in(
    alloc: Global,
    question: &Question,
    rewards: &RewardTable,
    bytes: &[u8],
) -> Result<AuditedRewards, RewardEnd>
    requires alive { IsAlive question.now }
    requires short { length bytes.now ≤ most_bytes }
    ensures accepted { IfOk result (λ made. IsAcceptedText question.now (exact_in question.now.game rewards.now)
        bytes.now made.plan (audited_certificate question.now made)) }
    ensures certified { IfOk result (λ made. IsCertified question.now rewards.now made) }
    ensures refused { (refusal : RewardRefusal) → result ≡ Err (RewardEnd.Refused refusal)
        → (fault : RewardAuditFault) × (refusal ≡ refusal_of fault)
        × IsRefused question.now (exact_in question.now.game rewards.now) bytes.now fault }
    ensures nothing { AsksNothing result }
{
    match audit_rewards(alloc, question, rewards, bytes) {
        Ok(made) => Ok(made),
        Err(fault) => Err(end_of(fault)),
    }
}

// Returns how loading ends for a fault.
fn end_of(fault: RewardAuditFault) -> RewardEnd
    ensures refused { (refusal : RewardRefusal) → result ≡ RewardEnd.Refused refusal
        → (refusal ≡ refusal_of fault) × ¬ IsOutOfMemory fault }
    ensures nothing { AsksNothing {X = Made} (Err result) }
{
    match fault {
        RewardAuditFault::Text(fault) => match fault.cause {
            PlanCause::OutOfMemory => RewardEnd::OutOfMemory,
            _ => RewardEnd::Refused(RewardRefusal::OfCertificateText(fault)),
        },
        RewardAuditFault::Plan(fault) => RewardEnd::Refused(RewardRefusal::OfCertificate(fault)),
    }
}
