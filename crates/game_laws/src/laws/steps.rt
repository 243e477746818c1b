//! This module has the laws of the order of down steps.

ghost use Rattle.std.specs.Prelude.{ℕ, ◌+◌};
ghost use Rattle.game_model.specs.Query.{Query, IsQuery};
ghost use Rattle.game_model.specs.Rounded.{down_step, down_steps, opening, IsBelow, IsSettled};

/// A greater table has a greater down step.
pub fn down_steps_keep_order()
    ensures { (q : Query) (table other : ℕ → ℕ) → IsQuery q → IsBelow q table other
        → IsBelow q (down_step q table) (down_step q other) }
{}

/// The table of r down steps never falls when r grows.
pub fn down_steps_rise()
    ensures { (q : Query) (r : ℕ) → IsQuery q → IsBelow q (down_steps q r) (down_steps q (r + 1)) }
{}

/// If a settled table is nowhere below the opening table, it is nowhere below the table of r down steps.
pub fn settled_tables_are_above_down_steps()
    ensures { (q : Query) (table : ℕ → ℕ) → IsQuery q → IsBelow q (opening q) table → IsSettled q table →
        (r : ℕ) → IsBelow q (down_steps q r) table }
{}
