//! This module splits numbers into the digits that a text spells them with.

ghost use Rattle.std.specs.Prelude.{◌≡◌, ◌≤◌, ◌&&◌, not, length, option_map, IfSome};
ghost use Rattle.text_lines.specs.Text.{is_nil, all_digits};
ghost use Rattle.numerals.specs.Spelling.{leading_digits, behind_digits, digits_len, exponent_digits, exponent_of, decimal_of, behind_front, spelling_of, quotient_of};
ghost use Rattle.numerals.specs.Written.{exponent_in, spelling_in, IsOfDigits};

/// This is an exponent as it is written. It has no digits if none is written.
#[derive(Clone, Copy)]
pub struct Power<'a> {
    /// The exponent is below 0.
    pub below: bool,
    /// These are its digits.
    pub digits: &'a [u8],
}

/// This is a number as it is written.
#[derive(Clone, Copy)]
pub enum Written<'a> {
    /// It is a decimal.
    Point {
        /// These digits are before the point.
        front: &'a [u8],
        /// These digits are after it.
        back: &'a [u8],
        /// This is its exponent.
        power: Power<'a>,
    },
    /// It is a quotient.
    Line {
        /// These digits are above the line.
        above: &'a [u8],
        /// These digits are below it.
        below: &'a [u8],
    },
}

// Returns the number of digits at the front.
fn digits_length(text: &[u8]) -> usize
    ensures value { result ≡ digits_len text.now }
    ensures within { result ≤ length text.now }
{
    let mut rest = text;
    let mut count = 0;
    while let [b, after @ ..] = rest {
        if !b.is_ascii_digit() {
            return count;
        }
        rest = after;
        count += 1;
    }
    count
}

// Returns the digits at the front, and the bytes after them.
fn split_digits(text: &[u8]) -> (&[u8], &[u8])
    ensures leading { result.0.now ≡ leading_digits text.now }
    ensures behind { result.1.now ≡ behind_digits text.now }
{
    text.split_at(digits_length(text))
}

// Returns whether the text is one or more digits, and nothing else.
#[tactic(auto, using(crate::proofs::Spelled::digits_whole))]
fn only_digits(text: &[u8]) -> bool
    ensures { result ≡ (not (is_nil text.now) && all_digits text.now) }
{
    !text.is_empty() && digits_length(text) == text.len()
}

// Returns the exponent with these digits, if they are digits and at least one.
fn power_of_digits(below: bool, digits: &[u8]) -> Option<Power<'_>>
    ensures { option_map exponent_in result ≡ exponent_digits below digits.now }
{
    if only_digits(digits) {
        Some(Power { below, digits })
    } else {
        None
    }
}

// Reads the exponent after an `e`.
fn read_power(text: &[u8]) -> Option<Power<'_>>
    ensures { option_map exponent_in result ≡ exponent_of text.now }
{
    match text {
        [b'-', digits @ ..] => power_of_digits(true, digits),
        [b'+', digits @ ..] => power_of_digits(false, digits),
        _ => power_of_digits(false, text),
    }
}

// Reads the decimal with these digits before and after the point, and the text after them.
fn read_decimal<'a>(front: &'a [u8], back: &'a [u8], text: &'a [u8]) -> Option<Written<'a>>
    ensures { option_map spelling_in result ≡ decimal_of front.now back.now text.now }
{
    match text {
        [] => Some(Written::Point {
            front,
            back,
            power: Power {
                below: false,
                digits: &[],
            },
        }),
        [b'e' | b'E', rest @ ..] => {
            let power = read_power(rest)?;
            Some(Written::Point { front, back, power })
        }
        _ => None,
    }
}

// Reads the quotient with these digits above the line, and the text after it.
fn read_quotient<'a>(above: &'a [u8], below: &'a [u8]) -> Option<Written<'a>>
    ensures { option_map spelling_in result ≡ quotient_of above.now below.now }
{
    if only_digits(below) {
        Some(Written::Line { above, below })
    } else {
        None
    }
}

// Reads the number with these digits at the front, and the text after them.
fn read_behind<'a>(front: &'a [u8], text: &'a [u8]) -> Option<Written<'a>>
    ensures { option_map spelling_in result ≡ behind_front front.now text.now }
{
    match text {
        [b'.', rest @ ..] => {
            let (back, rest) = split_digits(rest);
            read_decimal(front, back, rest)
        }
        [b'/', rest @ ..] => read_quotient(front, rest),
        _ => read_decimal(front, &[], text),
    }
}

/// Returns the digits of the number that the text spells, if it spells one.
pub fn read_spelling(text: &[u8]) -> Option<Written<'_>>
    ensures spelling { option_map spelling_in result ≡ spelling_of text.now }
    ensures digits { IfSome result IsOfDigits }
{
    let (front, rest) = split_digits(text);
    if front.is_empty() {
        return None;
    }
    read_behind(front, rest)
}
