//! This module checks whether a plan passes.

ghost use Rattle.std.specs.Prelude.{◌≤◌, slice_index, All, IfErr, OnOk};
ghost use Rattle.game_model.specs.Query.{states};
ghost use Rattle.game_model.specs.Limits.{unit};
ghost use Rattle.game_model.specs.Rounded.{IsInductive};
ghost use Rattle.inductive_check.specs.Faults.{IsUpperFault};
ghost use Rattle.inductive_check.specs.Replies.{AreReplies};
ghost use Rattle.plan_text.specs.Entries.{HasStates};
ghost use Rattle.certificate_audit.specs.declared.fault.AuditFault.TheVariants.{Upper};
ghost use Rattle.certificate_audit.specs.Accepted.{Passes};
ghost use Rattle.certificate_audit.specs.Refused.{IsFaultOf};

use crate::fault::AuditFault;
use game_model::Question;
use inductive_check::{UpperFault, check_replies, check_upper};
use plan_text::Plan;
use rank_certificate::check_ranks;

/// Checks a plan: its upper table, then the replies, then the lower table with choices and ranks. The error is the
/// first fault.
pub fn check_plan(question: &Question, plan: &Plan) -> Result<(), AuditFault>
    requires { HasStates plan.now (states question.now) }
    ensures passes { OnOk result (Passes question.now plan.now) }
    ensures fault { IfErr result (IsFaultOf question.now plan.now) }
{
    check_held(question, plan)?;
    check_ranks(question, &plan.lower, &plan.choices, &plan.ranks)?;
    Ok(())
}

// Checks the upper table of a plan, then its replies.
fn check_held(question: &Question, plan: &Plan) -> Result<(), UpperFault>
    requires { HasStates plan.now (states question.now) }
    ensures units { OnOk result (All (λ v. v ≤ unit) plan.now.upper.items) }
    ensures inductive { OnOk result (IsInductive question.now (slice_index plan.now.upper.items)) }
    ensures replies { OnOk result (AreReplies question.now (slice_index plan.now.upper.items) plan.now.replies.items) }
    ensures fault { IfErr result (λ fault. IsFaultOf question.now plan.now (AuditFault.Upper fault)) }
{
    check_upper(question, &plan.upper)?;
    check_replies(question, &plan.upper, &plan.replies)
}
