//! This module reads files with a state and a number a line.

ghost use Rattle.std.specs.Prelude.{◌≡◌, ◌<◌, ◌≤◌, ℕ, Err, Ok, IfOk, MatchResult, false, length};
ghost use Rattle.text_lines.specs.Limits.{most_bytes};
ghost use Rattle.text_lines.specs.Text.{lines_of};
ghost use Rattle.values_reader.specs.Answers.{Answers};
ghost use Rattle.values_reader.specs.Faults.{counted, fault_of_named, marked, new_state, with_state};
ghost use Rattle.values_reader.specs.Lines.{state_of};
ghost use Rattle.values_reader.specs.Values.{AreProbabilities, IsProbability};

use crate::fault::{ValuesCause, ValuesEnd};
use crate::line::state_and_value;
use crate::lines::next_line;
use std::alloc::{AllocError, Global};

// Holds the values of the states that are named so far. The others have 0.
#[derive(Drop)]
struct NamedValues {
    states: u32,
    named: Vec<bool>,
    values: Vec<f64>,
    ghost marks: { length named.items ≡ states },
    ghost entries: { length values.items ≡ states },
    ghost bounds: { AreProbabilities values.items },
}

impl NamedValues {
    // Makes a table in which no state is named.
    fn new(alloc: Global, states: u32) -> Result<NamedValues, AllocError>
        ensures states { IfOk result (λ it. it.states ≡ states) }
        ensures none { IfOk result (λ it. (state : ℕ) → marked it.named.items state ≡ false) }
    {
        let named = vec![in alloc; false; states as usize]?;
        let values = vec![in alloc; 0.0; states as usize]?;
        Ok(NamedValues {
            states,
            named,
            values,
        })
    }

    // Gives the state this value.
    fn put(&mut self, state: u32, value: f64)
        requires inside { state < self.old.states }
        requires bounds { IsProbability value }
        ensures named { (other : ℕ) → marked self.new.named.items other
            ≡ with_state state (marked self.old.named.items) other }
        ensures states { self.new.states ≡ self.old.states }
    {
        self.named[state as usize] = true;
        self.values[state as usize] = value;
    }
}

// Reads the state of a line, which is not marked yet, and its value, or the cause why the line is refused.
fn new_entry(states: u32, named: &[bool], line: &[u8]) -> Result<(u32, f64), ValuesCause>
    requires { length named.now ≡ states }
    ensures entry { MatchResult result
        (λ r. new_state states (marked named.now) (state_of line.now) ≡ Ok r.0)
        (λ cause. new_state states (marked named.now) (state_of line.now) ≡ Err cause) }
    ensures inside { IfOk result (λ r. r.0 < states) }
    ensures bounds { IfOk result (λ r. IsProbability r.1) }
{
    let Some((state, value)) = state_and_value(line) else {
        return Err(ValuesCause::BadField);
    };
    if state >= u64::from(states) {
        return Err(ValuesCause::StateOutOfRange);
    }
    if named[state as usize] {
        return Err(ValuesCause::DoubleState);
    }
    Ok((state as u32, value))
}

/// Reads the values of a text with a state and a number a line.
pub fn read_named(alloc: Global, text: &[u8], states: u32) -> Result<Vec<f64>, ValuesEnd>
    requires { length text.now ≤ most_bytes }
    ensures exact { Answers (fault_of_named states (λ state. false) (counted 1 (lines_of text.now))) result }
    ensures sizes { IfOk result (λ values. length values.items ≡ states) }
    ensures bounds { IfOk result (λ values. AreProbabilities values.items) }
{
    let Ok(mut table) = NamedValues::new(alloc, states) else {
        return Err(ValuesEnd::OutOfMemory);
    };
    let mut rest = text;
    let mut next = 1;
    while let Some((number, line, after)) = next_line(rest, next) {
        match new_entry(states, &table.named, line) {
            Ok((state, value)) => table.put(state, value),
            Err(cause) => return Err(ValuesEnd::at(number, cause)),
        }
        rest = after;
        next = number + 1;
    }
    Ok(table.values)
}
