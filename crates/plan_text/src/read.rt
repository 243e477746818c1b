//! This module reads a certificate from text.

ghost use Rattle.std.specs.Prelude.{◌≡◌, ◌≤◌, ◌<◌, ◌+◌, ◌&&◌, [], Ok, Err, All, IfOk, MatchResult, length, if◌then◌else◌};
ghost use Rattle.text_lines.specs.Limits.{most_bytes};
ghost use Rattle.text_lines.specs.Text.{lines_of, fields_of, is_nil, significant};
ghost use Rattle.plan_text.specs.Entries.{HasStates, IsInRange, entries_of};
ghost use Rattle.plan_text.specs.Said.{IsOutOfMemory, entries_said, entries_from};
ghost use Rattle.game_outside.specs.Answers.{AnswersOrWants};
ghost use Rattle.plan_text.specs.Parts.{end_said};
ghost use Rattle.plan_text.specs.inside.Read.{first_said};

use crate::entry::StateLine;
use crate::fault::{PlanCause, PlanFault};
use crate::heading::read_heading;
use crate::plan::Plan;
use crate::version::Version;
use std::alloc::Global;
use text_lines::{first_field, first_line, only_blank};

/// Reads the certificate of this many states from a text. It passes over the lines before the first one whose first
/// field is `certificate`. A value of the first version is as many units as its decimals say. It returns what the text
/// says, or the first fault of the text, line by line, unless memory runs out.
pub fn read_plan(alloc: Global, bytes: &[u8], states: u32) -> Result<Plan, PlanFault>
    requires { length bytes.now ≤ most_bytes }
    ensures lists { IfOk result (λ plan. HasStates plan states) }
    ensures said { AnswersOrWants IsOutOfMemory entries_of result (entries_said bytes.now states) }
    ensures in_range { IfOk result (λ plan. All IsInRange (entries_of plan)) }
{
    let (version, text, number) = read_heading(bytes, states)?;
    read_states(alloc, version, text, number, states)
}

// Reads the lines of the states, the first of which has this number.
fn read_states(
    alloc: Global,
    version: Version,
    text: &[u8],
    first: u32,
    states: u32,
) -> Result<Plan, PlanFault>
    requires { first + length text.now ≤ 1 + most_bytes }
    ensures lists { IfOk result (λ plan. HasStates plan states) }
    ensures said { AnswersOrWants IsOutOfMemory entries_of result
        (entries_from version states [] first (significant (lines_of text.now))) }
{
    let Ok(mut plan) = Plan::with_room(alloc, states) else {
        return Err(PlanFault::out_of_memory());
    };
    let mut rest = text;
    let mut number = first;
    for state in 0..states {
        let (entry, after) = read_state(version, state, rest, number)?;
        let Ok(()) = plan.push(entry) else {
            return Err(PlanFault::out_of_memory());
        };
        rest = after;
        number += 1;
    }
    check_end(rest, number)?;
    Ok(plan)
}

// Returns what the first line says of this state and the text after the line, or its fault.
fn read_state(
    version: Version,
    state: u32,
    text: &[u8],
    number: u32,
) -> Result<(StateLine, &[u8]), PlanFault>
    ensures said { MatchResult result
        (λ r. first_said version state number (significant (lines_of text.now))
        ≡ Ok (r.0, significant (lines_of r.1.now)))
        (λ fault. first_said version state number (significant (lines_of text.now)) ≡ Err fault) }
    ensures range { IfOk result (λ r. IsInRange r.0) }
    ensures shorter { IfOk result (λ r. length r.1.now < length text.now) }
{
    let Some((line, after)) = first_line(text) else {
        return Err(PlanFault {
            line: number,
            cause: PlanCause::MissingLine,
        });
    };
    match StateLine::read(version, state, line) {
        Ok(entry) => Ok((entry, after)),
        Err(cause) => Err(PlanFault {
            line: number,
            cause: cause_of(line, after, cause),
        }),
    }
}

/// Says why a line is refused: it is missing if it and all lines after it are blank.
pub fn cause_of(line: &[u8], after: &[u8], cause: PlanCause) -> PlanCause
    ensures { result ≡ (if is_nil (fields_of line.now) && is_nil
        (significant (lines_of after.now)) then PlanCause.MissingLine else cause) }
{
    if first_field(line).is_none() && only_blank(after) {
        PlanCause::MissingLine
    } else {
        cause
    }
}

/// Checks that all lines are blank, the first of which has this number. The first line that is not blank is at fault.
pub fn check_end(text: &[u8], first: u32) -> Result<(), PlanFault>
    requires { first + length text.now ≤ 1 + most_bytes }
    ensures { result ≡ end_said first (lines_of text.now) }
{
    let mut rest = text;
    let mut number = first;
    while let Some((line, after)) = first_line(rest) {
        if first_field(line).is_some() {
            return Err(PlanFault {
                line: number,
                cause: PlanCause::BadLine,
            });
        }
        rest = after;
        number += 1;
    }
    Ok(())
}
