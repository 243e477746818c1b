//! This module has the laws of audits. Each function does nothing: its contract is the law.

ghost use Rattle.std.specs.Prelude.{◌≡◌, ◌≤◌, ◌↔◌, ℕ, List, Option, All, length, slice_index};
ghost use Rattle.game_model.specs.Limits.{unit};
ghost use Rattle.game_model.specs.Query.{Query, IsQuery};
ghost use Rattle.game_model.specs.Rounded.{IsInductive, IsInductiveIn};
ghost use Rattle.game_model.specs.Ranks.{Ranked, RankedIn};
ghost use Rattle.inductive_check.specs.Replies.{AreReplies};
ghost use Rattle.plan_text.specs.declared.plan.Plan.{Plan};
ghost use Rattle.plan_text.specs.Entries.{entries_of};
ghost use Rattle.certificate_audit.specs.declared.fault.AuditFault.{AuditFault};
ghost use Rattle.certificate_audit.specs.Accepted.{IsAccepted, IsSoundPlan};
ghost use Rattle.certificate_audit.specs.Refused.{IsRefused};
ghost use Rattle.certificate_audit.specs.OldUnits.{old_unit, thousandfold};

/// What an accepted plan says is right, for every question and every text.
pub fn accepted_plans_are_sound()
    ensures { (q : Query) (text : List ℕ) (plan : Plan) → IsQuery q → IsAccepted q text plan → IsSoundPlan q plan }
{}

/// A text has one answer for a question: one fault, or no fault and the entries of one plan.
pub fn audits_have_one_answer()
    ensures fault { (q : Query) (text : List ℕ) (fault other : AuditFault) → IsRefused q text fault
        → IsRefused q text other → fault ≡ other }
    ensures accepted { (q : Query) (text : List ℕ) (plan : Plan) (fault : AuditFault) → IsAccepted q text plan
        → ¬ IsRefused q text fault }
    ensures entries { (q : Query) (text : List ℕ) (plan other : Plan) → IsAccepted q text plan → IsAccepted q text other
        → entries_of plan ≡ entries_of other }
{}

/// In a certificate of the first version, 10^12 units are probability 1. The certificate passes in those units exactly
/// if it passes as it is read, with each value a thousandfold.
pub fn old_certificates_mean_what_they_meant()
    ensures lengths { (table : List ℕ) → length (thousandfold table) ≡ length table }
    ensures upper { (q : Query) (upper : List ℕ) → IsQuery q →
        (All (λ v. v ≤ old_unit) upper × IsInductiveIn old_unit q (slice_index upper)) ↔
        (All (λ v. v ≤ unit) (thousandfold upper) × IsInductive q (slice_index (thousandfold upper))) }
    ensures replies { (q : Query) (upper : List ℕ) (replies : List (Option ℕ)) →
        AreReplies q (slice_index upper) replies ↔ AreReplies q (slice_index (thousandfold upper)) replies }
    ensures ranked { (q : Query) (values : List ℕ) (choices : List (Option ℕ)) (ranks : List ℕ) →
        RankedIn old_unit q values choices ranks ↔ Ranked q (thousandfold values) choices ranks }
{}
