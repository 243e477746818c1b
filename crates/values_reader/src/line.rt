//! This module reads a state and a number.

ghost use Rattle.std.specs.Prelude.{◌≡◌, ◌∷◌, Some, None, MatchOption, IfSome, option_map};
ghost use Rattle.text_lines.specs.Text.{fields_of, saturated};
ghost use Rattle.values_reader.specs.Lines.{is_mark, is_closed, is_valuation, one_state, split_last, state_before, state_of, without_brackets};
ghost use Rattle.values_reader.specs.Values.{IsProbability};

use crate::number::value_in;
use text_lines::{first_field, split_at_first, whole};

fn mark(b: u8) -> bool
    ensures { result ≡ is_mark b }
{
    b == b'=' || b == b':'
}

/// Splits a line at its last mark, `=` or `:`, if it has one.
pub fn split_at_last_mark(line: &[u8]) -> Option<(&[u8], &[u8])>
    ensures { MatchOption result (split_last line.now ≡ None) (λ r. split_last line.now ≡ Some (r.0.now, r.1.now)) }
{
    let mut place = line.len();
    while place > 0 {
        place -= 1;
        if mark(line[place]) {
            let (front, _) = line.split_at(place);
            let (_, back) = line.split_at(place + 1);
            return Some((front, back));
        }
    }
    None
}

// Takes off the brackets around the bytes, if there are any.
fn unbracketed(bytes: &[u8]) -> &[u8]
    ensures { result.now ≡ without_brackets bytes.now }
{
    match bytes {
        [b'(', inner @ .., b')'] => inner,
        _ => bytes,
    }
}

// Reads the state that is the one field of some bytes, in brackets or without.
fn only_state(bytes: &[u8]) -> Option<u64>
    ensures { result ≡ option_map saturated (one_state (fields_of bytes.now)) }
{
    let Some((field, rest)) = first_field(bytes) else {
        return None;
    };
    if first_field(rest).is_some() {
        return None;
    }
    whole(unbracketed(field))
}

// Returns whether the last field ends in `)`. `first` is the field before `rest`.
fn closed(first: &[u8], rest: &[u8]) -> bool
    ensures { result ≡ is_closed (first.now ∷ fields_of rest.now) }
{
    let mut last = first;
    let mut behind = rest;
    while let Some((field, after)) = first_field(behind) {
        last = field;
        behind = after;
    }
    matches!(last, [.., b')'])
}

// Returns whether some bytes are only a valuation in brackets.
fn valuation(bytes: &[u8]) -> bool
    ensures { result ≡ is_valuation (fields_of bytes.now) }
{
    match first_field(bytes) {
        Some((field, rest)) => matches!(field, [b'(', ..]) && closed(field, rest),
        None => false,
    }
}

// Reads the state before a number, with a valuation or without one.
fn state_in(bytes: &[u8]) -> Option<u64>
    ensures { result ≡ option_map saturated (state_before bytes.now) }
{
    match split_at_first(b':', bytes) {
        None => only_state(bytes),
        Some((front, back)) => {
            if valuation(back) {
                only_state(front)
            } else {
                None
            }
        }
    }
}

/// Reads the state of a line that is a state and a number, and the number as a value from 0 to 1.
pub fn state_and_value(line: &[u8]) -> Option<(u64, f64)>
    ensures state { MatchOption result (state_of line.now ≡ None)
        (λ r. option_map saturated (state_of line.now) ≡ Some r.0) }
    ensures bounds { IfSome result (λ r. IsProbability r.1) }
{
    let Some((front, back)) = split_at_last_mark(line) else {
        return None;
    };
    let Some(value) = value_in(back) else {
        return None;
    };
    let Some(state) = state_in(front) else {
        return None;
    };
    Some((state, value))
}
