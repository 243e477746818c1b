//! This module reads a certificate of rewards from text.

ghost use Rattle.std.specs.Prelude.{◌≡◌, ◌≤◌, ◌<◌, ◌+◌, [], Ok, Err, All, IfOk, MatchResult, length};
ghost use Rattle.text_lines.specs.Limits.{most_bytes};
ghost use Rattle.text_lines.specs.Text.{lines_of, significant};
ghost use Rattle.plan_text.specs.Fixed.{unit_digits};
ghost use Rattle.plan_text.specs.Said.{IsOutOfMemory, entries_from_by};
ghost use Rattle.game_outside.specs.Answers.{AnswersOrWants};
ghost use Rattle.reward_text.specs.Entries.{HasRewardStates, HasUnits, IsRewardEntry, certificate_of, reward_entries_of};
ghost use Rattle.reward_text.specs.Said.{rewards_said, reward_line_said, with_places};
ghost use Rattle.reward_text.specs.inside.Read.{first_reward};

use crate::heading::read_heading;
use crate::line::RewardLine;
use crate::plan::RewardPlan;
use plan_text::{PlanCause, PlanFault, cause_of, check_end};
use std::alloc::Global;
use text_lines::first_line;

/// Reads the certificate of rewards of this many states from a text. It passes over the lines before the first one
/// whose first field is `rewards`. It returns what the text says, or the first fault of the text, line by line, unless
/// memory runs out.
pub fn read_reward_plan(alloc: Global, bytes: &[u8], states: u32) -> Result<RewardPlan, PlanFault>
    requires { length bytes.now ≤ most_bytes }
    ensures lists { IfOk result (λ plan. HasRewardStates plan states) }
    ensures said { AnswersOrWants IsOutOfMemory certificate_of result (rewards_said bytes.now states) }
    ensures places { IfOk result (λ plan. plan.places ≤ unit_digits) }
    ensures units { IfOk result HasUnits }
    ensures in_range { IfOk result (λ plan. All IsRewardEntry (reward_entries_of plan)) }
{
    let (places, text, number) = read_heading(bytes, states)?;
    read_states(alloc, places, text, number, states)
}

// Reads the lines of the states, the first of which has this number.
fn read_states(
    alloc: Global,
    places: u32,
    text: &[u8],
    first: u32,
    states: u32,
) -> Result<RewardPlan, PlanFault>
    requires number { first + length text.now ≤ 1 + most_bytes }
    requires places { places ≤ unit_digits }
    ensures lists { IfOk result (λ plan. HasRewardStates plan states) }
    ensures said { AnswersOrWants IsOutOfMemory certificate_of result (with_places places
        (entries_from_by (reward_line_said places) states [] first (significant (lines_of text.now)))) }
    ensures places { IfOk result (λ plan. plan.places ≡ places) }
    ensures units { IfOk result HasUnits }
{
    let Ok(mut plan) = RewardPlan::with_room(alloc, places, states) else {
        return Err(PlanFault::out_of_memory());
    };
    let mut rest = text;
    let mut number = first;
    for state in 0..states {
        let (entry, after) = read_state(places, state, rest, number)?;
        let Ok(()) = plan.push(entry) else {
            return Err(PlanFault::out_of_memory());
        };
        rest = after;
        number += 1;
    }
    check_end(rest, number)?;
    Ok(plan)
}

// Returns what the first line says of this state and the text after the line, or its fault.
fn read_state(
    places: u32,
    state: u32,
    text: &[u8],
    number: u32,
) -> Result<(RewardLine, &[u8]), PlanFault>
    requires { places ≤ unit_digits }
    ensures said { MatchResult result
        (λ r. first_reward places state number (significant (lines_of text.now))
        ≡ Ok (r.0, significant (lines_of r.1.now)))
        (λ fault. first_reward places state number (significant (lines_of text.now)) ≡ Err fault) }
    ensures range { IfOk result (λ r. IsRewardEntry r.0) }
    ensures shorter { IfOk result (λ r. length r.1.now < length text.now) }
{
    let Some((line, after)) = first_line(text) else {
        return Err(PlanFault {
            line: number,
            cause: PlanCause::MissingLine,
        });
    };
    match RewardLine::read(places, state, line) {
        Ok(entry) => Ok((entry, after)),
        Err(cause) => Err(PlanFault {
            line: number,
            cause: cause_of(line, after, cause),
        }),
    }
}
