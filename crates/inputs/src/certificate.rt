//! This module reads and checks the certificate of an audit.

ghost use Rattle.std.specs.Prelude.{◌≡◌, ◌≤◌, ◌↔◌, None, Err, IfOk, IsErrOf, IsTrue, length, true};
ghost use Rattle.text_lines.specs.Limits.{most_bytes};
ghost use Rattle.certificate_audit.specs.Accepted.{IsAccepted, IsSoundPlan};
ghost use Rattle.certificate_audit.specs.Refused.{IsRefused, IsOutOfMemory};
ghost use Rattle.certificate_audit.specs.declared.fault.AuditFault.{AuditFault};
ghost use Rattle.output.specs.declared.refusal.Refusal.{Refusal};
ghost use Rattle.inputs.specs.Asks.{GivenTextWith};
ghost use Rattle.inputs.specs.Sources.{SourceWith, IfKnown};
ghost use Rattle.inputs.specs.Loading.{IsTooLong, LoadingLeaves, EndsCaused};
ghost use Rattle.inputs.specs.Questions.{RefusesCertificate};

use crate::load::{End, load_text};
use certificate_audit::{AuditFault, audit};
use game_model::Question;
use game_outside::Shelf;
use output::{Refusal, Text};
use plan_text::{Plan, PlanCause};
use std::alloc::Global;

/// Reads the certificate of a file, if a question accepts it.
pub fn load_certificate<H: Shelf>(
    alloc: Global,
    shelf: &mut H,
    question: &Question,
    name: &str,
) -> Result<Plan, End>
    ensures accepted { IfOk result (λ plan. SourceWith (H.held shelf.old) name.now
        (λ source. GivenTextWith source (λ text. IsAccepted question.now text plan))) }
    ensures sound { IfOk result (λ plan. IsSoundPlan question.now plan) }
    ensures refused { (refusal : Refusal) → result ≡ Err (End.Refused refusal)
        → SourceWith (H.held shelf.old) name.now (λ source. RefusesCertificate question.now source refusal) }
    ensures shelf { LoadingLeaves H.held H.steady H.faults H.taken shelf.old shelf.new result }
    ensures steadily { IsErrOf result End.ReadFault → H.steady shelf.old ≡ true
        → IfKnown (H.held shelf.old) (λ held. held name.now ≡ None) }
    ensures caused { EndsCaused result }
{
    let bytes = load_text(alloc, shelf, Text::Cert, name)?;
    certificate_in(alloc, question, &bytes)
}

fn certificate_in(alloc: Global, question: &Question, bytes: &[u8]) -> Result<Plan, End>
    requires { length bytes.now ≤ most_bytes }
    ensures accepted { IfOk result (λ plan. IsAccepted question.now bytes.now plan) }
    ensures sound { IfOk result (λ plan. IsSoundPlan question.now plan) }
    ensures refused { (refusal : Refusal) → result ≡ Err (End.Refused refusal)
        → (fault : AuditFault) × (refusal ≡ Refusal.OfCertificate fault) × IsRefused question.now bytes.now fault }
    ensures read { IsErrOf result End.ReadFault → ⊥ }
    ensures caused { EndsCaused result }
    ensures short { IsTooLong result → ⊥ }
{
    match audit(alloc, question, bytes) {
        Ok(plan) => Ok(plan),
        Err(fault) => {
            if is_out_of_memory(fault) {
                Err(End::OutOfMemory)
            } else {
                Err(End::Refused(Refusal::OfCertificate(fault)))
            }
        }
    }
}

// Returns whether memory ran out.
fn is_out_of_memory(fault: AuditFault) -> bool
    ensures { IsTrue result ↔ IsOutOfMemory fault }
{
    match fault {
        AuditFault::Text(fault) => fault.line == 0 && matches!(fault.cause, PlanCause::OutOfMemory),
        _ => false,
    }
}
