//! This module has the laws of k-step values: what lies below them or above them, and what comes near.

ghost use Rattle.std.specs.Prelude.{ℕ, ◌+◌, ◌*◌, ◌^◌, ◌<◌, ◌≤◌, List, Bool, Option};
ghost use Rattle.game_model.specs.Query.{Query, IsQuery, states};
ghost use Rattle.game_model.specs.Values.{denominator, numerator};
ghost use Rattle.game_model.specs.Limits.{unit};
ghost use Rattle.game_model.specs.Rounded.{down_steps, IsInductive};
ghost use Rattle.game_model.specs.Bounds.{IsHigh};
ghost use Rattle.game_model.specs.Dual.{open_numerator, swapped, IsZeroSet};
ghost use Rattle.game_model.specs.Plans.{numerator_under};
ghost use Rattle.game_model.specs.declared.game.Side.TheVariants.{Max};

/// The table of r down steps is at most the r-step values.
pub fn down_steps_are_below_values()
    ensures { (q : Query) (r s : ℕ) → IsQuery q → down_steps q r s * denominator q.game ^ r ≤ unit * numerator q r s }
{}

/// The table of r down steps is at most r units below the r-step values.
pub fn down_steps_come_near()
    ensures { (q : Query) → IsQuery q → (r s : ℕ)
        → unit * numerator q r s ≤ (down_steps q r s + r) * denominator q.game ^ r }
{}

/// The entries of an inductive table are at least every k-step value (a fixed-point argument after Park; as a
/// certificate of an upper bound it is used by Hartmanns and Kaminski, Optimistic value iteration, CAV 2020).
pub fn inductive_tables_are_high()
    ensures { (q : Query) (table : ℕ → ℕ) → IsQuery q → IsInductive q table → IsHigh q table }
{}

/// Let the lost states be those of value 0. If an upper entry and the entry of r down steps of the swapped question are
/// together at most 1, the upper entry is at most r units above the value of not being lost after r steps.
pub fn dual_bounds_come_near()
    ensures { (q : Query) (lost : List Bool) → IsQuery q → IsZeroSet q lost → (r s upper : ℕ) → s < states q →
        upper + down_steps (swapped q lost) r s ≤ unit →
        upper * denominator q.game ^ r ≤ unit * open_numerator q lost r s + r * denominator q.game ^ r }
{}

/// With a plan the maximiser reaches at most the k-step value within k steps.
pub fn plans_reach_at_most_the_value()
    ensures { (q : Query) (plan : List (Option ℕ)) (k s : ℕ) → numerator_under q Max plan k s ≤ numerator q k s }
{}
