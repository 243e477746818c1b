//! This module writes a certificate as text.

ghost use Rattle.std.specs.Prelude.{◌≡◌, ◌≤◌, ◌<◌, ◌++◌, All, IfOk, OnOk, codes, decimal, length};
ghost use Rattle.game_model.specs.Limits.{unit};
ghost use Rattle.plan_text.specs.Entries.{HasStates, entries_of, entry_at};
ghost use Rattle.plan_text.specs.Fixed.{fixed};
ghost use Rattle.plan_text.specs.Written.{behind_space, certificate_text, choice_text, entry_text};

use crate::fixed::append_fixed;
use crate::onto::{append, append_count, append_number};
use crate::plan::Plan;
use game_outside::OutOfMemory;
use std::alloc::Global;

/// Returns the text of a certificate. The first line is `certificate 2 N`. Then each of the N states has a line, by
/// rising number: the state, the lower bound, the maximiser's choice, the rank, the upper bound and the minimiser's
/// choice, with one space between them. The only error is that memory ran out.
pub fn write_plan(alloc: Global, plan: &Plan) -> Result<Vec<u8>, OutOfMemory>
    requires lists { HasStates plan.now (length plan.now.lower.items) }
    requires some { 1 ≤ length plan.now.lower.items }
    requires lower { All (λ v. v ≤ unit) plan.now.lower.items }
    requires upper { All (λ v. v ≤ unit) plan.now.upper.items }
    ensures { IfOk result (λ text. text.items ≡ certificate_text (entries_of plan.now)) }
{
    let mut text = Vec::new(alloc);
    append_plan(&mut text, plan)?;
    Ok(text)
}

/// Appends the text of [`write_plan`] to a text. The only error is that memory ran out.
pub fn append_plan(text: &mut Vec<u8>, plan: &Plan) -> Result<(), OutOfMemory>
    requires lists { HasStates plan.now (length plan.now.lower.items) }
    requires some { 1 ≤ length plan.now.lower.items }
    requires lower { All (λ v. v ≤ unit) plan.now.lower.items }
    requires upper { All (λ v. v ≤ unit) plan.now.upper.items }
    ensures { OnOk result (text.new.items ≡ text.old.items ++ certificate_text (entries_of plan.now)) }
{
    let states = plan.lower.len();
    append_heading(text, states)?;
    for state in 0..states {
        append_entry(text, plan, state)?;
    }
    Ok(())
}

// Appends the first line, which says how many states there are.
fn append_heading(text: &mut Vec<u8>, states: usize) -> Result<(), OutOfMemory>
    ensures { OnOk result (text.new.items ≡ text.old.items ++
        (codes "certificate 2 " ++ (decimal states ++ codes "\n"))) }
{
    append(text, b"certificate 2 ")?;
    append_count(text, states)?;
    append(text, b"\n")
}

// Appends the line of a state.
fn append_entry(text: &mut Vec<u8>, plan: &Plan, state: usize) -> Result<(), OutOfMemory>
    requires lists { HasStates plan.now (length plan.now.lower.items) }
    requires within { state < length plan.now.lower.items }
    requires lower { All (λ v. v ≤ unit) plan.now.lower.items }
    requires upper { All (λ v. v ≤ unit) plan.now.upper.items }
    ensures { OnOk result (text.new.items ≡ text.old.items ++ entry_text state (entry_at plan.now state)) }
{
    append_count(text, state)?;
    append_value(text, plan.lower[state])?;
    append_choice(text, plan.choices[state])?;
    append_rank(text, plan.ranks[state])?;
    append_value(text, plan.upper[state])?;
    append_choice(text, plan.replies[state])?;
    append(text, b"\n")
}

// Appends a space and a value.
fn append_value(text: &mut Vec<u8>, units: u64) -> Result<(), OutOfMemory>
    requires { units ≤ unit }
    ensures { OnOk result (text.new.items ≡ text.old.items ++ behind_space (fixed units)) }
{
    append(text, b" ")?;
    append_fixed(text, units)
}

/// Appends a space and a choice, or `-` if there is none.
pub fn append_choice(text: &mut Vec<u8>, choice: Option<u32>) -> Result<(), OutOfMemory>
    ensures { OnOk result (text.new.items ≡ text.old.items ++ behind_space (choice_text choice)) }
{
    append(text, b" ")?;
    match choice {
        Some(choice) => append_number(text, choice),
        None => append(text, b"-"),
    }
}

/// Appends a space and a rank.
pub fn append_rank(text: &mut Vec<u8>, rank: u32) -> Result<(), OutOfMemory>
    ensures { OnOk result (text.new.items ≡ text.old.items ++ behind_space (decimal rank)) }
{
    append(text, b" ")?;
    append_number(text, rank)
}
