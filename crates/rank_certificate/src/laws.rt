//! This module has the laws of ranked tables. Each function does nothing: its contract is the law.

ghost use Rattle.std.specs.Prelude.{◌≡◌, ℕ, ◌<◌, true, List, Option, None, length, slice_index, slice_index_or};
ghost use Rattle.game_model.specs.declared.game.Side.TheVariants.{Min};
ghost use Rattle.game_model.specs.Query.{Query, IsQuery, states, is_goal, is_dead, side_at};
ghost use Rattle.game_model.specs.Bounds.{IsNear};
ghost use Rattle.game_model.specs.Ranks.{Ranked, ReachesUnder};
ghost use Rattle.rank_certificate.specs.declared.check.RankCause.{RankCause};
ghost use Rattle.rank_certificate.specs.Faults.{IsRankFault};
ghost use Rattle.rank_certificate.specs.Layers.{AreLayered};
ghost use Rattle.rank_certificate.specs.Carrying.{IsLayeredPlan};

use game_model::Question;

/// If choices and ranks prove values, the plan of the choices reaches the values, less any 1/m, at one horizon for all
/// states.
pub fn ranked_values_are_reached()
    ensures { (q : Query) (values : List ℕ) (choices : List (Option ℕ)) (ranks : List ℕ) →
        IsQuery q → Ranked q values choices ranks → ReachesUnder q choices (slice_index values) }
{}

/// Two faults of the same values, choices and ranks are the same.
pub fn rank_faults_are_one()
    ensures { (q : Query) (values : List ℕ) (choices : List (Option ℕ)) (ranks : List ℕ) (s t : ℕ)
        (cause other : RankCause) →
        IsRankFault q values choices ranks s cause → IsRankFault q values choices ranks t other
        → (s ≡ t) × (cause ≡ other) }
{}

/// Ranked values of a program's own question are reached.
pub fn ranks_reach(question: &Question, values: &[u64], choices: &[Option<u32>], ranks: &[u32])
    requires { Ranked question.now values.now choices.now ranks.now }
    ensures { ReachesUnder question.now choices.now (slice_index values.now) }
{
    question.invariant();
}

/// If choices and ranks prove values, k-step values come as near to the values as one likes, at all states at once.
pub fn ranked_values_are_near()
    ensures { (q : Query) (values : List ℕ) (choices : List (Option ℕ)) (ranks : List ℕ) →
        IsQuery q → Ranked q values choices ranks → IsNear q (slice_index values) }
{}

/// Ranked values of a program's own question are near.
pub fn ranked_is_near(question: &Question, values: &[u64], choices: &[Option<u32>], ranks: &[u32])
    requires { Ranked question.now values.now choices.now ranks.now }
    ensures { IsNear question.now (slice_index values.now) }
{
    question.invariant();
}

/// The ranks of a layered plan are the layered ranks of its values and choices, as [`crate::find_ranks`] gives them.
pub fn layered_plans_are_layered(
    question: &Question,
    values: &[u64],
    choices: &[Option<u32>],
    ranks: &[u32],
)
    requires { IsLayeredPlan question.now values.now choices.now ranks.now }
    ensures { AreLayered question.now values.now choices.now ranks.now }
{
    question.invariant();
}

/// A layered plan has no choice at a goal, a dead state, a state of the minimiser and a state of value 0.
pub fn layered_plans_choose(
    question: &Question,
    values: &[u64],
    choices: &[Option<u32>],
    ranks: &[u32],
)
    requires { IsLayeredPlan question.now values.now choices.now ranks.now }
    ensures as_many { length choices.now ≡ states question.now }
    ensures none_at_goals { (s : ℕ) → s < states question.now → is_goal question.now s ≡ true
        → slice_index_or choices.now s None ≡ None }
    ensures none_at_deads { (s : ℕ) → s < states question.now → is_dead question.now s ≡ true
        → slice_index_or choices.now s None ≡ None }
    ensures none_at_least { (s : ℕ) → s < states question.now → side_at question.now s ≡ Min
        → slice_index_or choices.now s None ≡ None }
    ensures none_at_zero { (s : ℕ) → s < states question.now → slice_index values.now s ≡ 0
        → slice_index_or choices.now s None ≡ None }
{
    question.invariant();
}
