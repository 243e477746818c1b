//! This module reads files of values.

ghost use Rattle.std.specs.Prelude.{◌≡◌, ◌≤◌, IfOk, length};
ghost use Rattle.text_lines.specs.Limits.{most_bytes};
ghost use Rattle.values_reader.specs.Answers.{Answers};
ghost use Rattle.values_reader.specs.Faults.{fault_of};
ghost use Rattle.values_reader.specs.Values.{AreProbabilities};

use crate::fault::ValuesEnd;
use crate::in_order::read_in_order;
use crate::line::split_at_last_mark;
use crate::lines::next_line;
use crate::named::read_named;
use std::alloc::Global;

/// Reads the values of `states` states from a text, each from 0 to 1, or the first fault of the text. A number above 1
/// counts as 1, and one below 0, or `nan`, as 0. No contract says which number a line gives.
pub fn read_values(alloc: Global, text: &[u8], states: u32) -> Result<Vec<f64>, ValuesEnd>
    requires { length text.now ≤ most_bytes }
    ensures exact { Answers (fault_of states text.now) result }
    ensures sizes { IfOk result (λ values. length values.items ≡ states) }
    ensures bounds { IfOk result (λ values. AreProbabilities values.items) }
{
    match next_line(text, 1) {
        Some((_, line, _)) if split_at_last_mark(line).is_some() => read_named(alloc, text, states),
        _ => read_in_order(alloc, text, states),
    }
}
