//! A certificate of any origin is read and checked.

ghost use Rattle.std.specs.Prelude.{◌≤◌, ◌⊎◌, length, IfOk, IfErr};
ghost use Rattle.text_lines.specs.Limits.{most_bytes};
ghost use Rattle.certificate_audit.specs.Accepted.{IsAccepted, IsSoundPlan};
ghost use Rattle.certificate_audit.specs.Refused.{IsOutOfMemory, IsRefused};

use crate::fault::AuditFault;
use crate::plan::check_plan;
use game_model::Question;
use plan_text::{Plan, read_plan};
use std::alloc::Global;

/// Checks the certificate in a text, of any origin, for a question. It returns the plan that the text says, if its
/// upper table is inductive, its replies are held to it, and its choices and ranks prove its lower table. What is
/// accepted is right, whoever made it. The error is the first fault, in this order, or that memory ran out.
pub fn audit(alloc: Global, question: &Question, bytes: &[u8]) -> Result<Plan, AuditFault>
    requires { length bytes.now ≤ most_bytes }
    ensures accepted { IfOk result (λ plan. IsAccepted question.now bytes.now plan) }
    ensures sound { IfOk result (λ plan. IsSoundPlan question.now plan) }
    ensures refused { IfErr result (λ fault. IsOutOfMemory fault ⊎ IsRefused question.now bytes.now fault) }
{
    question.invariant();
    let plan = read_plan(alloc, bytes, question.game().states())?;
    check_plan(question, &plan)?;
    Ok(plan)
}
