//! This module puts fractions in lowest terms.

ghost use Rattle.std.specs.Prelude.{◌≡◌, ◌<◌, ◌≤◌, ◌-◌, ◌*◌, ◌%◌, ◌^◌, ◌⊎◌, ◌≢◌, MatchOption};
ghost use Rattle.std.specs.Int.{IsGcd};
ghost use Rattle.fractions.specs.Limits.{finest};
ghost use Rattle.fractions.specs.Fraction.{lowest};
ghost use Rattle.fractions.specs.Number.{in_range, fraction_said};

use crate::divisors::{MOST_NARROW, greatest_common_divisor, narrow_divisor};
use crate::fraction::Frac;
use crate::limits::{FINEST, FINEST_PLACES, MOST_VALUE};
use crate::number::NumberFault;
use crate::tens::Tens;

// A power of ten of 64 bits has at most this many places.
const NARROW_PLACES: u32 = 19;

/// Returns the fraction of two numbers in lowest terms, if it is in range.
pub fn checked(num: u128, den: u128) -> Result<Frac, NumberFault>
    requires lowest { IsGcd num den 1 }
    requires positive { 1 ≤ den }
    ensures { result ≡ in_range (record { num = num; den = den }) }
{
    if den > FINEST {
        return Err(NumberFault::TooFine);
    }
    if num > MOST_VALUE * den {
        return Err(NumberFault::TooLarge);
    }
    Ok(Frac::of(num, den))
}

/// Returns the fraction of two numbers.
pub fn quotient(above: u128, below: u128) -> Result<Frac, NumberFault>
    ensures { result ≡ fraction_said (record { num = above; den = below }) }
{
    if below == 0 {
        return Err(NumberFault::ZeroDenominator);
    }
    if above <= MOST_NARROW && below <= MOST_NARROW {
        return narrow_quotient(above as u64, below as u64);
    }
    let divisor = greatest_common_divisor(above, below);
    checked(above / divisor, below / divisor)
}

// Returns the fraction of two numbers of 64 bits.
fn narrow_quotient(above: u64, below: u64) -> Result<Frac, NumberFault>
    requires { 1 ≤ below }
    ensures { result ≡ fraction_said (record { num = above; den = below }) }
{
    let divisor = narrow_divisor(above, below);
    checked(u128::from(above / divisor), u128::from(below / divisor))
}

// A rest is a number after a factor is taken out.
#[derive(Clone, Copy)]
struct Rest {
    number: u128,
    // The factor may be taken out this many more times.
    left: u32,
}

// Takes a factor out of a number as often as it divides the number, but at most `most` times.
#[tactic(auto, using(crate::proofs::Powers::taken_out))]
#[inline(always)]
fn without(number: u128, factor: u128, most: u32) -> Rest
    requires some { 1 ≤ number }
    requires proper { 2 ≤ factor }
    ensures value { number ≡ result.number * factor ^ (most - result.left) }
    ensures left { result.left ≤ most }
    ensures out { (result.left ≡ 0) ⊎ (result.number % factor ≢ 0) }
{
    let mut rest = number;
    let mut left = most;
    while left > 0 && rest % factor == 0 {
        rest /= factor;
        left -= 1;
    }
    Rest { number: rest, left }
}

// Returns a product of powers of two and of five, unless it is above the finest denominator.
#[tactic(auto, using(crate::proofs::Powers::products))]
fn powers(twos: u32, fives: u32) -> Option<u128>
    ensures value { MatchOption result (finest < 2 ^ twos * 5 ^ fives) (λ m. m ≡ 2 ^ twos * 5 ^ fives) }
{
    if twos >= 80 {
        return None;
    }
    if fives >= 35 {
        return None;
    }
    let two = 2u128.pow(twos);
    let five = 5u128.pow(fives);
    if two > FINEST / five {
        return None;
    }
    Some(two * five)
}

// Returns the same product. Most decimals need no test by a division.
#[tactic(auto, using(crate::proofs::Powers::few_products))]
fn denominator(twos: u32, fives: u32) -> Option<u128>
    ensures value { MatchOption result (finest < 2 ^ twos * 5 ^ fives) (λ m. m ≡ 2 ^ twos * 5 ^ fives) }
{
    if twos <= FINEST_PLACES && fives <= FINEST_PLACES {
        return Some(2u128.pow(twos) * 5u128.pow(fives));
    }
    powers(twos, fives)
}

// Returns the fraction of these digits over a power of ten.
fn over_tens(digits: u128, tens: u32) -> Result<Frac, NumberFault>
    ensures { result ≡ in_range (lowest (record { num = digits; den = 10 ^ tens })) }
{
    if digits <= MOST_NARROW && tens <= NARROW_PLACES {
        return Tens::new(digits as u64, 10u64.pow(tens)).fraction();
    }
    wide_over_tens(digits, tens)
}

// Returns the same fraction if a number needs more than 64 bits.
fn wide_over_tens(digits: u128, tens: u32) -> Result<Frac, NumberFault>
    ensures { result ≡ in_range (lowest (record { num = digits; den = 10 ^ tens })) }
{
    if digits == 0 {
        return Ok(Frac::of(0, 1));
    }
    let odd = without(digits, 2, tens);
    let rest = without(odd.number, 5, tens);
    match denominator(odd.left, rest.left) {
        Some(den) => checked(rest.number, den),
        None => Err(NumberFault::TooFine),
    }
}

/// Returns the fraction of digits times a power of ten, over a power of ten.
pub fn decimal(digits: u128, up: u32, down: u32) -> Result<Frac, NumberFault>
    ensures { result ≡ fraction_said (record { num = digits * 10 ^ up; den = 10 ^ down }) }
{
    if up <= down {
        return over_tens(digits, down - up);
    }
    if digits == 0 {
        return Ok(Frac::of(0, 1));
    }
    Err(NumberFault::TooLarge)
}
