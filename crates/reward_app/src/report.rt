//! This module reports on a certificate in memory that a question accepts.

ghost use Rattle.std.specs.Prelude.{◌≡◌, ◌<◌, ◌≤◌, All, IfOk};
ghost use Rattle.game_model.specs.Limits.{unit};
ghost use Rattle.game_model.specs.Query.{states};
ghost use Rattle.output.specs.Status.{IsAnswer};
ghost use Rattle.reward_check.specs.Certificates.{said};
ghost use Rattle.reward_units.specs.Rounded.{exact_in};
ghost use Rattle.reward_text.specs.Entries.{HasRewardStates};
ghost use Rattle.reward_audit.specs.Audited.{audited_certificate};
ghost use Rattle.reward_reports.specs.Reports.{IsRewardReport};
ghost use Rattle.reward_app.specs.inside.Certified.{IsAlive, IsCertified};

use game_model::Question;
use game_outside::OutOfMemory;
use output::Answer;
use reward_audit::AuditedRewards;
use reward_check::RewardTables;
use reward_formula::RewardBound;
use reward_reports::reward_report_of;
use rewards_reader::RewardTable;
use std::alloc::Global;
use verdicts::How;

/// Reports on the initial states: one line for each, with the values of a certificate and what they say of a bound. The
/// only error is that memory ran out.
pub fn report_on(
    alloc: Global,
    question: &Question,
    rewards: &RewardTable,
    initial: &[u32],
    bound: &RewardBound,
    how: How,
    made: &AuditedRewards,
) -> Result<Answer, OutOfMemory>
    requires alive { IsAlive question.now }
    requires inside { All (λ s. s < states question.now) initial.now }
    requires certified { IsCertified question.now rewards.now made.now }
    ensures report { IfOk result (λ answer. IsRewardReport question.now (exact_in question.now.game rewards.now)
        initial.now bound.now how made.now.plan.places (audited_certificate question.now made.now) answer.text.items
        answer.status) }
    ensures answer { IfOk result (λ answer. IsAnswer answer.status) }
{
    let tables = tables_of(question, made);
    reward_report_of(
        alloc,
        &tables,
        rewards,
        made.plan.places,
        bound,
        how,
        initial,
    )
}

// Borrows the lists of a certificate.
fn tables_of<'a>(question: &'a Question<'a>, made: &'a AuditedRewards) -> RewardTables<'a>
    requires alive { IsAlive question.now }
    requires lists { HasRewardStates made.now.plan (states question.now) }
    requires lower { All (λ v. v ≤ unit) made.now.plan.lower.items }
    requires upper { All (λ v. v ≤ unit) made.now.plan.upper.items }
    ensures said { said result ≡ audited_certificate question.now made.now }
    ensures question { result.question.now ≡ question.now }
    ensures low { result.low.now ≡ made.now.low.items }
    ensures high { result.high.now ≡ made.now.high.items }
{
    question.invariant();
    RewardTables {
        question,
        low: &made.low,
        high: &made.high,
        finite: &made.plan.finite,
        bounded: &made.plan.bounded,
        lower: &made.plan.lower,
        upper: &made.plan.upper,
        choices: &made.plan.choices,
        replies: &made.plan.replies,
        ranks: &made.plan.ranks,
    }
}
