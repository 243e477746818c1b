//! This module has the law of what is saved. Its function does nothing: its contract is the law.

ghost use Rattle.std.specs.Prelude.{ℕ, true, List, Option};
ghost use Rattle.game_outside.specs.Outside.{Holding};
ghost use Rattle.command_words.specs.Words.{Asked};
ghost use Rattle.output.specs.declared.status.Status.{Status};
ghost use Rattle.verdicts.specs.declared.report.How.TheVariants.{Audited};
ghost use Rattle.reward_verdicts.specs.Report.{reward_report};
ghost use Rattle.reward_reports.specs.Printed.{reward_lines_of};
ghost use Rattle.reward_inputs.specs.Posed.{RewardQuestion};
ghost use Rattle.reward_inputs.specs.Questions.{AsksIt};
ghost use Rattle.reward_audit.specs.Accepted.{IsAcceptedText};
ghost use Rattle.reward_app.specs.Reports.{IsRewardAudit, IsRewardSolved, exact_by};

use reward_formula::laws::formulas_of_texts_are_spellable;
use reward_text::laws::{reward_certificates_are_read_back, reward_certificates_are_what_is_read};

/// The whole output that `solve` writes with `--plan` for a question that words ask has a certificate that an audit of
/// the same question accepts: it is read again as the plan of the solver, and passes every part of the check. The
/// report of the audit has the bounds and the verdicts of the solver, and so its status.
pub fn saved_rewards_are_accepted()
    ensures accepted { (holding : Option Holding) (asked : Asked) (name : List ℕ) (question : RewardQuestion)
        (text : List ℕ) (status : Status) → AsksIt holding asked name question
        → (is : IsRewardSolved question true text status)
        → IsAcceptedText question.posing.question (exact_by question is.table) text is.plan is.certificate }
    ensures audited { (holding : Option Holding) (asked : Asked) (name : List ℕ) (question : RewardQuestion)
        (text : List ℕ) (status : Status) → AsksIt holding asked name question
        → (is : IsRewardSolved question true text status)
        → IsRewardAudit question text (reward_report is.plan.places (reward_lines_of question.formula.bound Audited
        is.plan.places is.certificate question.posing.initial)) status }
{
    reward_certificates_are_read_back();
    reward_certificates_are_what_is_read();
    formulas_of_texts_are_spellable();
}
