//! This module writes a certificate of rewards as text.

ghost use Rattle.std.specs.Prelude.{◌≡◌, ◌≤◌, ◌<◌, ◌++◌, Bool, List, ℕ, IfOk, OnOk, length};
ghost use Rattle.plan_text.specs.Fixed.{unit_digits};
ghost use Rattle.plan_text.specs.Written.{behind_space};
ghost use Rattle.reward_values.specs.Values.{value_text};
ghost use Rattle.reward_text.specs.Entries.{HasRewardStates, reward_entries_of, reward_entry_at, value_at};
ghost use Rattle.reward_text.specs.Written.{reward_certificate_text, reward_heading_text, reward_entry_text};

use crate::plan::RewardPlan;
use game_outside::OutOfMemory;
use plan_text::{append, append_choice, append_count, append_number, append_rank};
use reward_values::append_reward_value;
use std::alloc::Global;

/// Returns the text of a certificate of rewards. The first line is `rewards 1 D N` for D places. Then each of the N
/// states has a line, by rising number: the state, the lower value, the maximiser's choice, the rank, the upper value
/// and the minimiser's reply, with one space between them. The only error is that memory ran out.
pub fn write_reward_plan(alloc: Global, plan: &RewardPlan) -> Result<Vec<u8>, OutOfMemory>
    requires lists { HasRewardStates plan.now (length plan.now.lower.items) }
    requires places { plan.now.places ≤ unit_digits }
    ensures { IfOk result (λ text.
        text.items ≡ reward_certificate_text plan.now.places (reward_entries_of plan.now)) }
{
    let mut text = Vec::new(alloc);
    append_reward_plan(&mut text, plan)?;
    Ok(text)
}

/// Appends the text of [`write_reward_plan`] to a text. The only error is that memory ran out.
pub fn append_reward_plan(text: &mut Vec<u8>, plan: &RewardPlan) -> Result<(), OutOfMemory>
    requires lists { HasRewardStates plan.now (length plan.now.lower.items) }
    requires places { plan.now.places ≤ unit_digits }
    ensures { OnOk result (text.new.items ≡ text.old.items
        ++ reward_certificate_text plan.now.places (reward_entries_of plan.now)) }
{
    let states = plan.lower.len();
    append_heading(text, plan.places, states)?;
    for state in 0..states {
        append_entry(text, plan, state)?;
    }
    Ok(())
}

// Appends the first line, which says how many places and states there are.
fn append_heading(text: &mut Vec<u8>, places: u32, states: usize) -> Result<(), OutOfMemory>
    ensures { OnOk result (text.new.items ≡ text.old.items ++ reward_heading_text places states) }
{
    append(text, b"rewards 1 ")?;
    append_number(text, places)?;
    append(text, b" ")?;
    append_count(text, states)?;
    append(text, b"\n")
}

// Appends the line of a state.
fn append_entry(text: &mut Vec<u8>, plan: &RewardPlan, state: usize) -> Result<(), OutOfMemory>
    requires lists { HasRewardStates plan.now (length plan.now.lower.items) }
    requires within { state < length plan.now.lower.items }
    requires places { plan.now.places ≤ unit_digits }
    ensures { OnOk result (text.new.items ≡ text.old.items ++
        reward_entry_text plan.now.places state (reward_entry_at plan.now state)) }
{
    append_count(text, state)?;
    append_value(
        text,
        plan.places,
        value_at(&plan.finite, &plan.lower, state),
    )?;
    append_choice(text, plan.choices[state])?;
    append_rank(text, plan.ranks[state])?;
    append_value(
        text,
        plan.places,
        value_at(&plan.bounded, &plan.upper, state),
    )?;
    append_choice(text, plan.replies[state])?;
    append(text, b"\n")
}

// Returns the value of a state: a number where it is marked, and else none.
fn value_at(numbers: &[bool], units: &[u64], state: usize) -> Option<u64>
    requires numbers { state < length numbers.now }
    requires units { state < length units.now }
    ensures { result ≡ value_at numbers.now units.now state }
{
    if numbers[state] {
        Some(units[state])
    } else {
        None
    }
}

// Appends a space and a value.
fn append_value(text: &mut Vec<u8>, places: u32, value: Option<u64>) -> Result<(), OutOfMemory>
    requires { places ≤ unit_digits }
    ensures { OnOk result (text.new.items ≡ text.old.items ++ behind_space (value_text places value)) }
{
    append(text, b" ")?;
    append_reward_value(text, places, value)
}
