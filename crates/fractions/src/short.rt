//! This module reads short decimals, which most numbers of a file are: one digit, or one digit before a point and at
//! most 18 after it.

ghost use Rattle.std.specs.Prelude.{◌≡◌, IfSome};
ghost use Rattle.fractions.specs.Number.{number_said, fraction_said};
ghost use Rattle.fractions.specs.inside.Short.{AreDecimal};

use crate::tens::Tens;

// With one digit before the point such a decimal fits 64 bits.
const MOST_PLACES: usize = 18;

/// Returns the fraction that a short decimal spells, not in lowest terms. It returns none if the text is something
/// else.
#[inline(always)]
pub fn short_decimal(text: &[u8]) -> Option<Tens>
    ensures { IfSome result (λ tens. number_said text.now ≡ fraction_said (record { num = tens.num; den = tens.den })) }
{
    match text {
        [front] => over_places(*front, &[]),
        [front, b'.', back @ ..] => over_places(*front, back),
        _ => None,
    }
}

// Returns the decimal with this digit before the point and these digits after it.
#[inline(always)]
fn over_places(front: u8, back: &[u8]) -> Option<Tens>
    ensures { IfSome result (AreDecimal front back.now) }
{
    if !front.is_ascii_digit() || back.len() > MOST_PLACES {
        return None;
    }
    let mut num = u64::from(front - b'0');
    let mut den = 1;
    for b in back {
        if !b.is_ascii_digit() {
            return None;
        }
        num = 10 * num + u64::from(b - b'0');
        den *= 10;
    }
    Some(Tens::new(num, den))
}
