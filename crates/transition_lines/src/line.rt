//! This module reads transition lines.

ghost use Rattle.std.specs.Prelude.{◌≡◌, ◌<◌, [], ℕ, Option, Some, Result, Ok, Err, IfOk, option_map};
ghost use Rattle.text_lines.specs.Text.{fields_of, saturated};
ghost use Rattle.fractions.specs.Number.{number_said};
ghost use Rattle.transition_lines.specs.Lines.{mdp_parts, dtmc_parts, parts_said, row_said, transition_said, transition_within};
ghost use Rattle.transition_lines.specs.Order.{IsWithin, place_of};
ghost use Rattle.transition_lines.specs.Answers.{SaysRow, IsLastField};

use crate::fault::TraCause;
use crate::header::Header;
use crate::limits::MOST_STATED_CHOICES;
use distributions::Part;
use fractions::{Frac, read_number};
use text_lines::{first_field, first_number};

/// A transition leads from the source, by its choice, to the destination, with the probability `share`.
#[derive(Clone, Copy, Debug, PartialEq, Eq)]
pub struct Transition {
    pub source: u32,
    pub choice: u32,
    pub destination: u32,
    pub share: Frac,
}

impl Transition {
    ghost use Rattle.transition_lines.specs.Order.{transition_place};
    ghost use Rattle.transition_lines.specs.Choices.{part_of};

    /// Returns the place of the line's choice in the order of all choices.
    pub fn place(&self) -> u64
        ensures { result ≡ transition_place self.now }
    {
        place_at(self.source, self.choice)
    }

    /// Returns the transition's part of its choice.
    pub fn part(&self) -> Part
        ensures { result ≡ part_of self.now }
    {
        Part {
            to: self.destination,
            share: self.share,
        }
    }
}

/// Returns the place of a choice in the order of all choices.
pub fn place_at(state: u32, choice: u32) -> u64
    ensures { result ≡ place_of state choice }
{
    u64::from(MOST_STATED_CHOICES) * u64::from(state) + u64::from(choice)
}

/// Reads the transition and the action of a line.
#[inline(always)]
pub fn read_line<'a>(header: &Header, line: &'a [u8]) -> Result<(Transition, &'a [u8]), TraCause>
    ensures said { SaysRow result (row_said header.now (fields_of line.entry.now)) }
    ensures within { IfOk result (λ r. IsWithin header.now.states r.0) }
{
    let states = header.states;
    match header.choices {
        Some(_) => read_mdp_line(states, line),
        None => read_dtmc_line(states, line),
    }
}

// Reads a line `i k j x` or `i k j x a`.
#[inline(always)]
fn read_mdp_line(states: u32, line: &[u8]) -> Result<(Transition, &[u8]), TraCause>
    ensures said { SaysRow result (parts_said states (mdp_parts (fields_of line.entry.now))) }
    ensures within { IfOk result (λ r. IsWithin states r.0) }
{
    let Some((source, rest)) = first_number(line) else {
        return Err(TraCause::FieldCount);
    };
    let Some((choice, rest)) = first_number(rest) else {
        return Err(TraCause::FieldCount);
    };
    let Some((destination, rest)) = first_number(rest) else {
        return Err(TraCause::FieldCount);
    };
    let Some((probability, rest)) = first_field(rest) else {
        return Err(TraCause::FieldCount);
    };
    let Some(action) = last_field(rest) else {
        return Err(TraCause::FieldCount);
    };
    match transition_of(states, source, choice, destination, probability) {
        Err(cause) => Err(cause),
        Ok(found) => Ok((found, action)),
    }
}

// Reads a line `i j x` or `i j x a`.
#[inline(always)]
fn read_dtmc_line(states: u32, line: &[u8]) -> Result<(Transition, &[u8]), TraCause>
    ensures said { SaysRow result (parts_said states (dtmc_parts (fields_of line.entry.now))) }
    ensures within { IfOk result (λ r. IsWithin states r.0) }
{
    let Some((source, rest)) = first_number(line) else {
        return Err(TraCause::FieldCount);
    };
    let Some((destination, rest)) = first_number(rest) else {
        return Err(TraCause::FieldCount);
    };
    let Some((probability, rest)) = first_field(rest) else {
        return Err(TraCause::FieldCount);
    };
    if last_field(rest).is_none() {
        return Err(TraCause::FieldCount);
    }
    match transition_of(states, source, Some(0), destination, probability) {
        Err(cause) => Err(cause),
        Ok(found) => Ok((found, &[])),
    }
}

// Returns the one field that is left, or no byte if none is left. If more are left, the answer is `None`.
#[inline(always)]
fn last_field(line: &[u8]) -> Option<&[u8]>
    ensures { IsLastField result (fields_of line.entry.now) }
{
    match first_field(line) {
        None => Some(&[]),
        Some((field, rest)) => {
            if first_field(rest).is_some() {
                return None;
            }
            Some(field)
        }
    }
}

// Makes the transition with these numbers and this probability, or gives its first fault.
#[inline(always)]
fn transition_of(
    states: u32,
    source: Option<u64>,
    choice: Option<u64>,
    destination: Option<u64>,
    probability: &[u8],
) -> Result<Transition, TraCause>
    ensures said { (i k j : Option ℕ) → source ≡ option_map saturated i → choice ≡ option_map saturated k
        → destination ≡ option_map saturated j → result ≡ transition_said states i k j (number_said probability.now) }
    ensures within { IfOk result (IsWithin states) }
{
    let Some(i) = source else {
        return Err(TraCause::BadField);
    };
    let Some(k) = choice else {
        return Err(TraCause::BadField);
    };
    let Some(j) = destination else {
        return Err(TraCause::BadField);
    };
    within(states, i, k, j, probability)
}

#[inline(always)]
fn within(
    states: u32,
    source: u64,
    choice: u64,
    destination: u64,
    probability: &[u8],
) -> Result<Transition, TraCause>
    ensures said { (i k j : ℕ) → source ≡ saturated i → choice ≡ saturated k → destination ≡ saturated j
        → result ≡ transition_within states i k j (number_said probability.now) }
    ensures within { IfOk result (IsWithin states) }
{
    if source >= u64::from(states) {
        return Err(TraCause::StateOutOfRange);
    }
    if choice >= u64::from(MOST_STATED_CHOICES) {
        return Err(TraCause::OverLimit);
    }
    if destination >= u64::from(states) {
        return Err(TraCause::StateOutOfRange);
    }
    match read_number(probability) {
        Err(fault) => Err(TraCause::Number(fault)),
        Ok(share) => Ok(Transition {
            source: source as u32,
            choice: choice as u32,
            destination: destination as u32,
            share,
        }),
    }
}
