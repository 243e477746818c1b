//! This module sorts transitions by their choices.

ghost use Rattle.std.specs.Prelude.{◌≡◌, ℕ, OnOk, length};
ghost use Rattle.std.specs.List.{filter, All};
ghost use Rattle.transition_lines.specs.Order.{Rises, IsWithin, has, transition_place};

use std::alloc::AllocError;
use transition_lines::Transition;

/// Puts the transitions in the order of their choices, and keeps the order of those of one choice.
pub fn put_in_order(transitions: &mut Vec<Transition>) -> Result<(), AllocError>
    ensures rises { OnOk result (Rises transition_place transitions.new.items) }
    ensures same { OnOk result ((q : ℕ) → filter (has transition_place q) transitions.new.items
        ≡ filter (has transition_place q) transitions.old.items) }
    ensures within { OnOk result ((n : ℕ) → All (IsWithin n) transitions.old.items
        → All (IsWithin n) transitions.new.items) }
    ensures len { OnOk result (length transitions.new.items ≡ length transitions.old.items) }
{
    transitions.sort_by_key(|transition| transition.place())?;
    Ok(())
}
