//! This module reads files with one number a line, in the order of the states.

ghost use Rattle.std.specs.Prelude.{◌≡◌, ◌≤◌, ◌+◌, IfOk, OnOk, length, min};
ghost use Rattle.text_lines.specs.Limits.{most_bytes};
ghost use Rattle.text_lines.specs.Text.{lines_of};
ghost use Rattle.values_reader.specs.Answers.{Answers};
ghost use Rattle.values_reader.specs.Faults.{counted, fault_in_order};
ghost use Rattle.values_reader.specs.Values.{AreProbabilities, IsProbability};

use crate::fault::{ValuesCause, ValuesEnd};
use crate::lines::next_line;
use crate::number::value_in;
use std::alloc::{AllocError, Global};

// Puts a value behind the others, unless there are as many as states.
fn push_within(values: &mut Vec<f64>, states: u32, value: f64) -> Result<(), AllocError>
    requires few { length values.old.items ≤ states }
    requires before { AreProbabilities values.old.items }
    requires bounds { IsProbability value }
    ensures sizes { OnOk result (length values.new.items ≡ min (length values.old.items + 1) states) }
    ensures bounds { OnOk result (AreProbabilities values.new.items) }
{
    if values.len() < states as usize {
        values.push(value)?;
    }
    Ok(())
}

/// Reads the values of a text with one number a line.
pub fn read_in_order(alloc: Global, text: &[u8], states: u32) -> Result<Vec<f64>, ValuesEnd>
    requires { length text.now ≤ most_bytes }
    ensures exact { Answers (fault_in_order states (counted 1 (lines_of text.now))) result }
    ensures sizes { IfOk result (λ values. length values.items ≡ states) }
    ensures bounds { IfOk result (λ values. AreProbabilities values.items) }
{
    let mut values = Vec::new(alloc);
    let mut count = 0;
    let mut rest = text;
    let mut next = 1;
    while let Some((number, line, after)) = next_line(rest, next) {
        let Some(value) = value_in(line) else {
            return Err(ValuesEnd::at(number, ValuesCause::BadField));
        };
        if push_within(&mut values, states, value).is_err() {
            return Err(ValuesEnd::OutOfMemory);
        }
        count += 1;
        rest = after;
        next = number + 1;
    }
    if count == states {
        Ok(values)
    } else {
        Err(ValuesEnd::at(0, ValuesCause::LineCount))
    }
}
