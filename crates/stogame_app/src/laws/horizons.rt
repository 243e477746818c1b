//! A sound plan bounds the values within k steps.

ghost use Rattle.std.specs.Prelude.{ℕ, ◌<◌, slice_index};
ghost use Rattle.game_model.specs.Bounds.{IsHigh, IsNear};
ghost use Rattle.game_model.specs.Query.{Query, IsQuery, states};
ghost use Rattle.formula_reader.specs.declared.formula.Bound.{Bound};
ghost use Rattle.plan_text.specs.declared.plan.Plan.{Plan};
ghost use Rattle.certificate_audit.specs.Accepted.{IsSoundPlan};
ghost use Rattle.verdicts.specs.Truth.{VerdictIsRight};
ghost use Rattle.verdicts.specs.Verdict.{verdict_of};

use verdicts::laws::verdicts_are_true;

/// Each lower bound of a sound plan, less any 1/m, is at most some k-step value, and each upper bound is at least every
/// k-step value. What the verdict of its bounds says holds of the k-step values.
pub fn sound_plans_bound_k_step_values()
    ensures near { (q : Query) (plan : Plan) → IsQuery q → IsSoundPlan q plan
        → IsNear q (slice_index plan.lower.items) }
    ensures high { (q : Query) (plan : Plan) → IsQuery q → IsSoundPlan q plan
        → IsHigh q (slice_index plan.upper.items) }
    ensures right { (q : Query) (plan : Plan) (bound : Bound) (s : ℕ) → IsQuery q → IsSoundPlan q plan → s < states q
        → VerdictIsRight q bound s (verdict_of bound (slice_index plan.lower.items s)
        (slice_index plan.upper.items s)) }
{
    verdicts_are_true();
}
