//! This module has the laws of exact values, for every question.

ghost use Rattle.std.specs.Prelude.{◌≡◌, ℕ, ◌*◌, ◌<◌, ◌≤◌, ◌↔◌, Bool, true, false, List, slice_index_or};
ghost use Rattle.game_model.specs.Query.{Query, IsQuery, states};
ghost use Rattle.game_model.specs.Bounds.{IsNear, IsHigh, Reaches, Exceeds};
ghost use Rattle.game_model.specs.Dual.{IsZeroSet};
ghost use Rattle.game_model.specs.Limits.{unit};
ghost use Rattle.determinacy.specs.Exact.{HasValues};

/// Every question has values: both sides have a plan, without memory or dice, that no strategy of the other beats.
pub fn questions_have_values()
    ensures { (q : Query) → IsQuery q → HasValues q }
{}

/// The k-step values come as near to a/b as one likes exactly if the value is at least a/b, and some k-step value is
/// above a/b exactly if the value is above a/b. So every threshold is met or not.
pub fn values_decide_thresholds()
    ensures reached { (q : Query) (v : HasValues q) (a b s : ℕ) → IsQuery q → s < states q
        → Reaches q a b s ↔ (a * v.top ≤ b * v.value s) }
    ensures exceeded { (q : Query) (v : HasValues q) (a b s : ℕ) → IsQuery q → s < states q
        → Exceeds q a b s ↔ (a * v.top < b * v.value s) }
{}

/// Sound bounds lie on either side of the values, and each state has one value.
pub fn bounds_lie_on_either_side()
    ensures below { (q : Query) (table : ℕ → ℕ) (v : HasValues q) → IsQuery q → IsNear q table → (s : ℕ) → s < states q
        → table s * v.top ≤ unit * v.value s }
    ensures above { (q : Query) (table : ℕ → ℕ) (v : HasValues q) → IsQuery q → IsHigh q table → (s : ℕ) → s < states q
        → unit * v.value s ≤ table s * v.top }
    ensures one { (q : Query) (v w : HasValues q) → IsQuery q → (s : ℕ) → s < states q
        → v.value s * w.top ≡ w.value s * v.top }
{}

/// Every question has a zero set, and a state is in it exactly if its value is 0.
pub fn questions_have_zero_sets()
    ensures exists { (q : Query) → IsQuery q → (zero : List Bool) × IsZeroSet q zero }
    ensures value { (q : Query) (v : HasValues q) (zero : List Bool) (s : ℕ) → IsQuery q → IsZeroSet q zero
        → s < states q → (slice_index_or zero s false ≡ true) ↔ (v.value s ≡ 0) }
{}
