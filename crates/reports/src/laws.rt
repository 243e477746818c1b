//! This module has the laws of reports. Each function does nothing: its contract is the law.

ghost use Rattle.std.specs.Prelude.{◌≡◌, ◌<◌, ◌-◌, ℕ, List, slice_index};
ghost use Rattle.game_model.specs.Bounds.{Reaches};
ghost use Rattle.game_model.specs.Limits.{unit};
ghost use Rattle.game_model.specs.Query.{Query, states};
ghost use Rattle.plan_text.specs.declared.plan.Plan.{Plan};
ghost use Rattle.plan_text.specs.Entries.{HasStates};
ghost use Rattle.certificate_audit.specs.Accepted.{IsSoundPlan, Passes};
ghost use Rattle.formula_truth.specs.Rest.{IsBelowRest, IsNearRest};
ghost use Rattle.output.specs.declared.status.Status.TheVariants.{Fine};
ghost use Rattle.reports.specs.Made.{IsMade};

use bracket_engine::laws::{lower_tables_agree, settled_bases_agree, settled_upper_bounds_agree};

/// The bounds of `G`, which are mirrored when they are printed, are sound. The lower one is at most 1 less every k-step
/// value of the dual. For any m there is a k-step value of the dual such that 1 less it, less 1/m, is at most the upper
/// one. This holds of every plan that passes, whether it comes from a bracket or from a certificate of any origin.
pub fn mirrored_bounds_are_sound()
    ensures { (q : Query) (plan : Plan) (s : ℕ) → HasStates plan (states q) → Passes q plan → IsSoundPlan q plan
        → s < states q → Reaches q (slice_index plan.lower.items s) unit s
        → IsBelowRest q s (unit - slice_index plan.upper.items s)
        × IsNearRest q s (unit - slice_index plan.lower.items s) }
{}

/// If the status is 0, the line of `make` is the same for the same seed and number of states, whatever the number of
/// rounds that were asked for, the workers and their schedules.
pub fn settled_games_agree()
    ensures { (seed states asked other_asked : ℕ) (text other : List ℕ) → IsMade seed states asked text Fine
        → IsMade seed states other_asked other Fine → text ≡ other }
{
    settled_bases_agree();
    lower_tables_agree();
    settled_upper_bounds_agree();
}
