//! This module has the laws of upper tables and of replies to them. Each function does nothing: its contract is the
//! law.

ghost use Rattle.std.specs.Prelude.{◌≡◌, ℕ, List, min, slice_index};
ghost use Rattle.game_model.specs.Query.{Query, IsQuery};
ghost use Rattle.game_model.specs.Rounded.{IsInductive};
ghost use Rattle.inductive_check.specs.declared.upper.UpperCause.{UpperCause};
ghost use Rattle.inductive_check.specs.Faults.{IsUpperFault};
ghost use Rattle.inductive_check.specs.Replies.{AreReplies, HoldsUnder};

use game_model::Question;

/// Two faults of one table are the same.
pub fn upper_faults_are_one()
    ensures { (q : Query) (upper : List ℕ) (s t : ℕ) (cause other : UpperCause) →
        IsUpperFault q upper s cause → IsUpperFault q upper t other → (s ≡ t) × (cause ≡ other) }
{}

/// Let each entry of a table be the lesser of the entries of two inductive tables. Then the table is inductive.
pub fn the_least_of_two_is_inductive()
    ensures { (q : Query) (table other : ℕ → ℕ) → IsQuery q → IsInductive q table → IsInductive q other →
        IsInductive q (λ s. min (table s) (other s)) }
{}

/// Replies to an inductive table hold every opponent to it.
pub fn replies_hold(question: &Question, upper: &[u64], replies: &[Option<u32>])
    requires inductive { IsInductive question.now (slice_index upper.now) }
    requires replies { AreReplies question.now (slice_index upper.now) replies.now }
    ensures { HoldsUnder question.now replies.now (slice_index upper.now) }
{
    question.invariant();
}
