//! This module reads the first line of a text.

ghost use Rattle.std.specs.Prelude.{◌≡◌, ◌<◌, ℕ, Option, Result, Ok, Err, option_map, IfOk};
ghost use Rattle.text_lines.specs.Text.{fields_of, number_of, saturated};
ghost use Rattle.transition_lines.specs.Lines.{header_said, header_checked, mdp_header, dtmc_header};
ghost use Rattle.transition_lines.specs.Answers.{IsAccepted};

use crate::fault::TraCause;
use crate::limits::{MOST_LINES, MOST_STATED_CHOICES};
use game_model::MOST_STATES;
use text_lines::{first_field, whole};

/// A header states the number of states, in an MDP that of the choices of all states, and that of the transition lines.
#[derive(Clone, Copy, Debug, PartialEq, Eq)]
pub struct Header {
    pub states: u32,
    pub choices: Option<u32>,
    pub lines: u32,
}

/// Reads the header.
pub fn read_header(line: &[u8]) -> Result<Header, TraCause>
    ensures said { result ≡ header_said (fields_of line.now) }
    ensures accepted { IfOk result IsAccepted }
{
    let Some((first, rest)) = first_field(line) else {
        return Err(TraCause::NoHeader);
    };
    let Some((second, rest)) = first_field(rest) else {
        return Err(TraCause::NoHeader);
    };
    let Some((third, rest)) = first_field(rest) else {
        return dtmc(first, second);
    };
    if first_field(rest).is_some() {
        return Err(TraCause::NoHeader);
    }
    mdp(first, second, third)
}

fn dtmc(states: &[u8], lines: &[u8]) -> Result<Header, TraCause>
    ensures said { result ≡ dtmc_header (number_of states.now) (number_of lines.now) }
    ensures accepted { IfOk result IsAccepted }
{
    let Some(n) = whole(states) else {
        return Err(TraCause::NoHeader);
    };
    let Some(m) = whole(lines) else {
        return Err(TraCause::NoHeader);
    };
    checked(n, None, m)
}

fn mdp(states: &[u8], choices: &[u8], lines: &[u8]) -> Result<Header, TraCause>
    ensures said { result ≡ mdp_header (number_of states.now) (number_of choices.now) (number_of lines.now) }
    ensures accepted { IfOk result IsAccepted }
{
    let Some(n) = whole(states) else {
        return Err(TraCause::NoHeader);
    };
    let Some(c) = whole(choices) else {
        return Err(TraCause::NoHeader);
    };
    let Some(m) = whole(lines) else {
        return Err(TraCause::NoHeader);
    };
    checked(n, Some(c), m)
}

// Makes the header of these numbers, or gives its fault.
fn checked(states: u64, choices: Option<u64>, lines: u64) -> Result<Header, TraCause>
    ensures said { (n m : ℕ) (c : Option ℕ) → states ≡ saturated n → choices ≡ option_map saturated c
        → lines ≡ saturated m → result ≡ header_checked n c m }
    ensures accepted { IfOk result IsAccepted }
{
    if states > u64::from(MOST_STATES) || lines > u64::from(MOST_LINES) {
        return Err(TraCause::OverLimit);
    }
    let choices = match choices {
        None => None,
        Some(c) => {
            if c > u64::from(MOST_STATED_CHOICES) {
                return Err(TraCause::OverLimit);
            }
            Some(c as u32)
        }
    };
    if states == 0 {
        return Err(TraCause::NoStates);
    }
    Ok(Header {
        states: states as u32,
        choices,
        lines: lines as u32,
    })
}
