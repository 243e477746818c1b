//! This module has what an audit accepted.

ghost use Rattle.std.specs.Prelude.{◌≡◌, ℕ, ◌<◌, ◌≤◌, All, false};
ghost use Rattle.game_model.specs.Limits.{unit};
ghost use Rattle.game_model.specs.Query.{states, is_dead};
ghost use Rattle.reward_text.specs.Entries.{HasRewardStates};

use game_model::Question;
use reward_check::RewardTables;
use reward_text::RewardPlan;

/// This is the plan of a certificate, with the rewards of the question in its units.
#[derive(Drop)]
pub struct AuditedRewards {
    /// This is what the text says.
    pub plan: RewardPlan,
    /// Each choice has this reward, rounded down, state by state.
    pub low: Vec<u64>,
    /// Each choice has this reward, rounded up, state by state.
    pub high: Vec<u64>,
}

impl AuditedRewards {
    ghost use Rattle.reward_check.specs.Certificates.{said};
    ghost use Rattle.reward_audit.specs.Audited.{audited_certificate};

    /// Returns the lists as tables of a question, as a check takes them.
    pub fn tables<'a>(&'a self, question: &'a Question<'a>) -> RewardTables<'a>
        requires alive { (s : ℕ) → s < states question.now → is_dead question.now s ≡ false }
        requires lists { HasRewardStates self.now.plan (states question.now) }
        requires lower { All (λ v. v ≤ unit) self.now.plan.lower.items }
        requires upper { All (λ v. v ≤ unit) self.now.plan.upper.items }
        ensures { said result ≡ audited_certificate question.now self.now }
    {
        question.invariant();
        RewardTables {
            question,
            low: &self.low,
            high: &self.high,
            finite: &self.plan.finite,
            bounded: &self.plan.bounded,
            lower: &self.plan.lower,
            upper: &self.plan.upper,
            choices: &self.plan.choices,
            replies: &self.plan.replies,
            ranks: &self.plan.ranks,
        }
    }
}
