//! This module has the laws of low tables.

ghost use Rattle.std.specs.Prelude.{ℕ, ◌<◌, ◌≤◌, ◌⊎◌};
ghost use Rattle.game_model.specs.Query.{Query, IsQuery, states};
ghost use Rattle.game_model.specs.Rounded.{down_step};
ghost use Rattle.game_model.specs.Bounds.{IsLow, IsNear};

/// The down step of a low table is a low table.
pub fn down_steps_stay_low()
    ensures { (q : Query) (table : ℕ → ℕ) → IsQuery q → IsLow q table → IsLow q (down_step q table) }
{}

/// If each entry of a table is at most that of a low table or its down value, the table is low.
pub fn raised_tables_stay_low()
    ensures { (q : Query) (table next : ℕ → ℕ) → IsQuery q → IsLow q table →
        ((s : ℕ) → s < states q → (next s ≤ table s) ⊎ (next s ≤ down_step q table s)) → IsLow q next }
{}

/// The k-step values come near to a low table.
pub fn low_tables_are_near()
    ensures { (q : Query) (table : ℕ → ℕ) → IsLow q table → IsNear q table }
{}
