//! This module reads the lines behind the header: `state: index index ..`.

ghost use Rattle.std.specs.Prelude.{◌≡◌, ◌<◌, List, Err, Some, option_map, IfOk, MatchResult, if◌then◌else◌};
ghost use Rattle.std.specs.List.{list_all};
ghost use Rattle.text_lines.specs.Text.{fields_of, saturated};
ghost use Rattle.label_lines.specs.Header.{Item};
ghost use Rattle.label_lines.specs.Lines.{is_number, only_number, numbered, state_line, known_line};

use crate::faults::LabCause;
use text_lines::{first_field, split_at_first, whole};

// Returns the number that a line is, if it has no other field.
fn only_whole(line: &[u8]) -> Option<u64>
    ensures { result ≡ option_map saturated (only_number (fields_of line.now)) }
{
    let Some((field, rest)) = first_field(line) else {
        return None;
    };
    if first_field(rest).is_some() {
        return None;
    }
    whole(field)
}

// Returns whether each field is a number.
fn all_whole(line: &[u8]) -> bool
    ensures { result ≡ list_all is_number (fields_of line.now) }
{
    let mut rest = line;
    while let Some((field, after)) = first_field(rest) {
        if whole(field).is_none() {
            return false;
        }
        rest = after;
    }
    true
}

/// Returns the fault of a line whose numbers have this one. If a field is no number, that fault comes first.
pub fn fault_of_numbers(numbers: &[u8], cause: LabCause) -> LabCause
    ensures { result ≡ (if list_all is_number (fields_of numbers.now) then cause else LabCause.BadField) }
{
    if all_whole(numbers) {
        cause
    } else {
        LabCause::BadField
    }
}

/// Returns the state of a line and the part that has the indices. If there is no state below `states` before a colon,
/// it returns the first fault of the line.
pub fn read_state(states: u32, line: &[u8]) -> Result<(u32, &[u8]), LabCause>
    ensures line { MatchResult result
        (λ r. state_line line.now ≡ numbered (Some r.0) (fields_of r.1.now))
        (λ cause. (items : List Item) → known_line states items (state_line line.now) ≡ Err cause) }
    ensures range { IfOk result (λ r. r.0 < states) }
{
    let Some((front, numbers)) = split_at_first(b':', line) else {
        return Err(LabCause::BadField);
    };
    let Some(state) = only_whole(front) else {
        return Err(LabCause::BadField);
    };
    if state >= u64::from(states) {
        return Err(fault_of_numbers(numbers, LabCause::StateOutOfRange));
    }
    Ok((state as u32, numbers))
}
