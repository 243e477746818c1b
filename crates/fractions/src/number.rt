//! This module reads numbers as texts spell them.

ghost use Rattle.std.specs.Prelude.{◌≡◌, true, Some};
ghost use Rattle.text_lines.specs.Text.{all_digits};
ghost use Rattle.numerals.specs.Spelling.{Decimal, Quotient};
ghost use Rattle.numerals.specs.Written.{exponent_in};
ghost use Rattle.fractions.specs.Number.{number_said, spelling_said};

use crate::fraction::Frac;
use crate::lowest::{decimal, quotient};
use crate::short::short_decimal;
use numerals::{
    MOST_DIGITS, MOST_EXPONENT, MOST_EXPONENT_DIGITS, Power, Written, digits_onto, read_spelling,
};

/// This says why a text spells no fraction. It is the first reason in this order.
#[derive(Clone, Copy, Debug, PartialEq, Eq)]
pub enum NumberFault {
    /// The text is neither a decimal nor a fraction.
    NotANumber,
    /// It has too many digits, or its exponent is out of range.
    TooManyDigits,
    /// Its denominator is 0.
    ZeroDenominator,
    /// Its denominator in lowest terms is above 10^23.
    TooFine,
    /// It is above 2.
    TooLarge,
}

// Returns the fraction of a decimal.
#[tactic(auto, using(numerals::proofs::Spelled::rooms))]
fn point_fraction(front: &[u8], back: &[u8], power: Power<'_>) -> Result<Frac, NumberFault>
    requires front { all_digits front.now ≡ true }
    requires back { all_digits back.now ≡ true }
    requires power { all_digits power.digits.now ≡ true }
    ensures { result ≡ spelling_said (Some (Decimal front.now back.now (exponent_in power.entry))) }
{
    if front.len() + back.len() > MOST_DIGITS {
        return Err(NumberFault::TooManyDigits);
    }
    if power.digits.len() > MOST_EXPONENT_DIGITS {
        return Err(NumberFault::TooManyDigits);
    }
    let size = digits_onto(0, power.digits);
    if size > u128::from(MOST_EXPONENT) {
        return Err(NumberFault::TooManyDigits);
    }
    let digits = digits_onto(digits_onto(0, front), back);
    let places = back.len() as u32;
    let size = size as u32;
    if power.below {
        decimal(digits, 0, places + size)
    } else {
        decimal(digits, size, places)
    }
}

// Returns the fraction of two numbers.
#[tactic(auto, using(numerals::proofs::Spelled::digits_room))]
fn line_fraction(above: &[u8], below: &[u8]) -> Result<Frac, NumberFault>
    requires above { all_digits above.now ≡ true }
    requires below { all_digits below.now ≡ true }
    ensures { result ≡ spelling_said (Some (Quotient above.now below.now)) }
{
    if above.len() > MOST_DIGITS {
        return Err(NumberFault::TooManyDigits);
    }
    if below.len() > MOST_DIGITS {
        return Err(NumberFault::TooManyDigits);
    }
    quotient(digits_onto(0, above), digits_onto(0, below))
}

// Returns the fraction that a text of any spelling denotes. It is a function of its own, so that short decimals are
// read in a small loop.
#[inline(never)]
fn number_in(text: &[u8]) -> Result<Frac, NumberFault>
    ensures { result ≡ number_said text.now }
{
    match read_spelling(text) {
        None => Err(NumberFault::NotANumber),
        Some(Written::Point { front, back, power }) => point_fraction(front, back, power),
        Some(Written::Line { above, below }) => line_fraction(above, below),
    }
}

/// Returns the fraction that a text spells, or the first reason why it spells none. Most texts are short decimals. The
/// answer is what the text denotes: `laws::numbers_are_those_that_a_text_denotes`.
#[inline(always)]
pub fn read_number(text: &[u8]) -> Result<Frac, NumberFault>
    ensures { result ≡ number_said text.now }
{
    match short_decimal(text) {
        Some(tens) => tens.fraction(),
        None => number_in(text),
    }
}
