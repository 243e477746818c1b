//! This module finds the lines of a text that are not blank.

ghost use Rattle.std.specs.Prelude.{◌≡◌, ◌≤◌, ◌<◌, ◌+◌, ◌∷◌, ◌^◌, [], MatchOption, length};
ghost use Rattle.text_lines.specs.Text.{lines_of};
ghost use Rattle.values_reader.specs.Faults.{counted};

use text_lines::{first_field, first_line};

/// Returns the next line that is not blank, with its number, and the text behind it. The first line of the text has
/// this number.
pub fn next_line(text: &[u8], number: u32) -> Option<(u32, &[u8], &[u8])>
    requires { number + length text.now < 2 ^ 32 }
    ensures line { MatchOption result (counted number (lines_of text.now) ≡ [])
        (λ r. counted number (lines_of text.now) ≡ record { number = r.0; bytes = r.1.now }
        ∷ counted (r.0 + 1) (lines_of r.2.now)) }
    ensures later { MatchOption result (Unit {0}) (λ r. number ≤ r.0) }
    ensures shorter { MatchOption result (Unit {0}) (λ r. length r.2.now < length text.now) }
    ensures number { MatchOption result (Unit {0}) (λ r. r.0 + 1 + length r.2.now ≤ number + length text.now) }
{
    let mut rest = text;
    let mut next = number;
    while let Some((line, after)) = first_line(rest) {
        if first_field(line).is_some() {
            return Some((next, line, after));
        }
        rest = after;
        next += 1;
    }
    None
}
