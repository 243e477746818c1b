//! This module has the laws of bounds: what low, near and high tables say of a bound a/b.

ghost use Rattle.std.specs.Prelude.{ℕ, ◌*◌, ◌<◌, ◌≤◌};
ghost use Rattle.game_model.specs.Query.{Query, IsQuery, states};
ghost use Rattle.game_model.specs.Limits.{unit};
ghost use Rattle.game_model.specs.Bounds.{IsLow, IsNear, IsHigh, Reaches, Exceeds};

/// A lower value that is at least a bound shows that the values reach the bound.
pub fn low_tables_are_reached()
    ensures { (q : Query) (table : ℕ → ℕ) (a b s : ℕ) → IsLow q table → s < states q → a * unit ≤ table s * b
        → Reaches q a b s }
{}

/// A lower value that is above a bound shows that some value exceeds the bound.
pub fn low_tables_are_exceeded()
    ensures { (q : Query) (table : ℕ → ℕ) (a b s : ℕ) → IsQuery q → IsLow q table → s < states q
        → a * unit < table s * b → Exceeds q a b s }
{}

/// A value that k-step values come near, and that is at least a bound, shows that the values reach the bound.
pub fn near_tables_are_reached()
    ensures { (q : Query) (table : ℕ → ℕ) (a b s : ℕ) → IsNear q table → s < states q → a * unit ≤ table s * b
        → Reaches q a b s }
{}

/// A value that k-step values come near, and that is above a bound, shows that some value exceeds the bound.
pub fn near_tables_are_exceeded()
    ensures { (q : Query) (table : ℕ → ℕ) (a b s : ℕ) → IsQuery q → IsNear q table → s < states q
        → a * unit < table s * b → Exceeds q a b s }
{}

/// An upper value that is at most a bound shows that no value exceeds the bound.
pub fn high_tables_are_not_exceeded()
    ensures { (q : Query) (table : ℕ → ℕ) (a b s : ℕ) → IsHigh q table → s < states q → table s * b ≤ a * unit
        → ¬ Exceeds q a b s }
{}

/// An upper value that is below a bound shows that the values do not reach the bound.
pub fn high_tables_are_not_reached()
    ensures { (q : Query) (table : ℕ → ℕ) (a b s : ℕ) → IsQuery q → IsHigh q table → s < states q
        → table s * b < a * unit → ¬ Reaches q a b s }
{}
