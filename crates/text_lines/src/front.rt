//! This module reads the first field of a line as a number.

ghost use Rattle.std.specs.Prelude.{◌≡◌, [], MatchOption};
ghost use Rattle.text_lines.specs.Text.{fields_of};
ghost use Rattle.text_lines.specs.Numbers.{BeginsWithNumber};
ghost use Rattle.text_lines.specs.inside.Digits.{AreDigitsBefore};

use crate::fields::{at_field_end, behind_blanks, field_length};
use crate::numbers::whole;

// If one more digit follows a number up to this one, the result still fits 64 bits.
const MOST_SHORT: u64 = 1_000_000_000_000_000_000;

/// Returns what `whole` says of the first field, and the rest of the line, which begins with the blank after the field.
/// It returns none if the line has no field. A number of at most 19 digits is read in one pass.
pub fn first_number(line: &[u8]) -> Option<(Option<u64>, &[u8])>
    ensures { MatchOption result (fields_of line.now ≡ []) (λ r. BeginsWithNumber line.now r.0 r.1.now) }
{
    let text = behind_blanks(line);
    if text.is_empty() {
        return None;
    }
    let (value, rest) = short_digits(text);
    if at_field_end(rest) {
        return Some((Some(value), rest));
    }
    let (field, rest) = text.split_at(field_length(text));
    Some((whole(field), rest))
}

// Returns the number of the digits at the front, as many as are sure to fit 64 bits, and the bytes after them.
fn short_digits(text: &[u8]) -> (u64, &[u8])
    ensures { AreDigitsBefore text.now result.0 result.1.now }
{
    let mut rest = text;
    let mut value = 0u64;
    while let [b, after @ ..] = rest {
        if !b.is_ascii_digit() || value > MOST_SHORT {
            return (value, rest);
        }
        value = 10 * value + u64::from(b - b'0');
        rest = after;
    }
    (value, rest)
}
