//! This module has the laws for a program's own question and tables.

ghost use Rattle.std.specs.Prelude.{ℕ, ◌+◌, ◌*◌, ◌^◌, ◌<◌, ◌≤◌, ◌⊎◌, slice_index, slice_set};
ghost use Rattle.game_model.specs.Query.{states};
ghost use Rattle.game_model.specs.Values.{denominator, numerator};
ghost use Rattle.game_model.specs.Limits.{unit};
ghost use Rattle.game_model.specs.Rounded.{down_step, down_steps, opening, IsBelow, IsSettled, IsInductive};
ghost use Rattle.game_model.specs.Bounds.{IsLow, IsHigh, Reaches, Exceeds};

use game_model::Question;

/// If each entry of a table is at most that of a low table or its down value, the table is low.
pub fn stays_low(question: &Question, table: &[u64], next: &[u64])
    requires low { IsLow question.now (slice_index table.now) }
    requires raised { (s : ℕ) → s < states question.now →
        (slice_index next.now s ≤ slice_index table.now s)
        ⊎ (slice_index next.now s ≤ down_step question.now (slice_index table.now) s) }
    ensures { IsLow question.now (slice_index next.now) }
{
    question.invariant();
}

/// A low table stays low if one entry is raised to at most its down value.
pub fn stays_low_when_raised(question: &Question, table: &[u64], state: u32, value: u64)
    requires low { IsLow question.now (slice_index table.now) }
    requires raised { value ≤ down_step question.now (slice_index table.now) state }
    ensures { IsLow question.now (slice_index (slice_set table.now state value)) }
{
    question.invariant();
}

/// A greater table has a greater down step.
pub fn down_steps_in_order(question: &Question, table: &[u64], other: &[u64])
    requires { IsBelow question.now (slice_index table.now) (slice_index other.now) }
    ensures { IsBelow question.now (down_step question.now (slice_index table.now))
        (down_step question.now (slice_index other.now)) }
{
    question.invariant();
}

/// The table of r down steps never falls when r grows, is at most the r-step values, and is at most r units below them.
pub fn down_steps_of(question: &Question)
    ensures rises { (r : ℕ) → IsBelow question.now (down_steps question.now r) (down_steps question.now (r + 1)) }
    ensures below { (r s : ℕ) → down_steps question.now r s * denominator question.now.game ^ r
        ≤ unit * numerator question.now r s }
    ensures near { (r s : ℕ) → unit * numerator question.now r s
        ≤ (down_steps question.now r s + r) * denominator question.now.game ^ r }
{
    question.invariant();
}

/// If a settled table is nowhere below the opening table, it is nowhere below the table of r down steps.
pub fn settled_is_above_down_steps(question: &Question, table: &[u64])
    requires opens { IsBelow question.now (opening question.now) (slice_index table.now) }
    requires settled { IsSettled question.now (slice_index table.now) }
    ensures { (r : ℕ) → IsBelow question.now (down_steps question.now r) (slice_index table.now) }
{
    question.invariant();
}

/// The entries of an inductive table are at least every k-step value.
pub fn inductive_is_high(question: &Question, table: &[u64])
    requires { IsInductive question.now (slice_index table.now) }
    ensures { IsHigh question.now (slice_index table.now) }
{
    question.invariant();
}

/// If an entry of a low table is at least a bound a/b, the values reach the bound. If it is above, they exceed the
/// bound.
pub fn low_and_bounds(question: &Question, table: &[u64])
    requires { IsLow question.now (slice_index table.now) }
    ensures reached { (a b s : ℕ) → s < states question.now → a * unit ≤ slice_index table.now s * b
        → Reaches question.now a b s }
    ensures exceeded { (a b s : ℕ) → s < states question.now → a * unit < slice_index table.now s * b
        → Exceeds question.now a b s }
{
    question.invariant();
}

/// If an entry of a high table is at most a bound a/b, no value exceeds the bound. If it is below, the values do not
/// reach the bound.
pub fn high_and_bounds(question: &Question, table: &[u64])
    requires { IsHigh question.now (slice_index table.now) }
    ensures not_exceeded { (a b s : ℕ) → s < states question.now → slice_index table.now s * b ≤ a * unit
        → ¬ Exceeds question.now a b s }
    ensures not_reached { (a b s : ℕ) → s < states question.now → slice_index table.now s * b < a * unit
        → ¬ Reaches question.now a b s }
{
    question.invariant();
}
