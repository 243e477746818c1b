//! This module has the laws of audits of rewards. Each function does nothing: its contract is the law.

ghost use Rattle.std.specs.Prelude.{◌≡◌, ℕ, List};
ghost use Rattle.game_model.specs.Query.{Query};
ghost use Rattle.reward_check.specs.Certificates.{Certificate};
ghost use Rattle.reward_text.specs.declared.plan.RewardPlan.{RewardPlan};
ghost use Rattle.reward_text.specs.Entries.{certificate_of};
ghost use Rattle.reward_units.specs.Exact.{ExactRewards};
ghost use Rattle.reward_audit.specs.declared.fault.RewardAuditFault.{RewardAuditFault};
ghost use Rattle.reward_audit.specs.Accepted.{IsAcceptedText};
ghost use Rattle.reward_audit.specs.Refused.{IsRefused};

/// Over exact rewards a text has one answer for a question: one fault, or no fault and the entries of one plan.
pub fn reward_audits_have_one_answer()
    ensures fault { (q : Query) (exact : ExactRewards) (text : List ℕ) (fault other : RewardAuditFault)
        → IsRefused q exact text fault → IsRefused q exact text other → fault ≡ other }
    ensures accepted { (q : Query) (exact : ExactRewards) (text : List ℕ) (plan : RewardPlan) (c : Certificate)
        (fault : RewardAuditFault) → IsAcceptedText q exact text plan c → ¬ IsRefused q exact text fault }
    ensures entries { (q : Query) (exact : ExactRewards) (text : List ℕ) (plan other : RewardPlan) (c d : Certificate)
        → IsAcceptedText q exact text plan c → IsAcceptedText q exact text other d
        → certificate_of plan ≡ certificate_of other }
{}
