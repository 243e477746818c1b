//! This module makes the answer of an audit: a report from a certificate that was accepted.

ghost use Rattle.std.specs.Prelude.{◌<◌, All, IfOk};
ghost use Rattle.game_model.specs.Query.{states};
ghost use Rattle.rpatl_syntax.specs.Dual.{IsAtMostOne};
ghost use Rattle.formula_reader.specs.Formula.{tree_of};
ghost use Rattle.plan_text.specs.Entries.{HasStates};
ghost use Rattle.certificate_audit.specs.Accepted.{Passes, IsSoundPlan};
ghost use Rattle.output.specs.Status.{IsAnswer};
ghost use Rattle.reports.specs.Audits.{IsAudited};

use formula_reader::Formula;
use game_model::Question;
use game_outside::OutOfMemory;
use output::{Answer, is_mirrored, report_of};
use plan_text::Plan;
use std::alloc::Global;
use verdicts::How;
use verdicts::laws::{mirrored_verdicts_are_those_of_the_dual, undecided_thresholds_are_left_open};

/// Writes one line for each initial state, with the numbers of a certificate that was accepted, and what they say of a
/// formula. The only error is that memory ran out.
pub fn audit_report(
    alloc: Global,
    question: &Question,
    plan: &Plan,
    formula: &Formula,
    initial: &[u32],
) -> Result<Answer, OutOfMemory>
    requires share { IsAtMostOne formula.now.bound }
    requires inside { All (λ s. s < states question.now) initial.now }
    requires lists { HasStates plan.now (states question.now) }
    requires passes { Passes question.now plan.now }
    requires sound { IsSoundPlan question.now plan.now }
    ensures audited { IfOk result (λ answer. IsAudited question.now initial.now
        (tree_of formula.now) plan.now answer.text.items answer.status) }
    ensures answer { IfOk result (λ answer. IsAnswer answer.status) }
{
    // These calls do nothing: they recall what a question keeps, and two laws.
    question.invariant();
    undecided_thresholds_are_left_open();
    mirrored_verdicts_are_those_of_the_dual();
    report_of(
        alloc,
        is_mirrored(formula),
        &formula.bound,
        How::Audited,
        &plan.lower,
        &plan.upper,
        initial,
    )
}
