//! This module has greatest common divisors and least common multiples.

ghost use Rattle.std.specs.Prelude.{◌≡◌, ◌<◌, ◌≤◌, MatchOption};
ghost use Rattle.fractions.specs.Divisors.{gcd, lcm};
ghost use Rattle.fractions.specs.Limits.{finest};

use crate::limits::FINEST;

/// This is the greatest number of 64 bits.
pub const MOST_NARROW: u128 = 18_446_744_073_709_551_615;

/// Returns the greatest common divisor, by Euclid's algorithm.
#[tactic(auto, using(crate::proofs::Euclid::gcd_step, crate::proofs::Euclid::gcd_zero))]
pub fn greatest_common_divisor(a: u128, b: u128) -> u128
    ensures { result ≡ gcd a b }
{
    let mut greater = a;
    let mut lesser = b;
    while lesser != 0 {
        let rest = greater % lesser;
        greater = lesser;
        lesser = rest;
    }
    greater
}

/// Returns the greatest common divisor of numbers of 64 bits.
#[tactic(auto, using(crate::proofs::Euclid::gcd_step, crate::proofs::Euclid::gcd_zero))]
pub fn narrow_divisor(a: u64, b: u64) -> u64
    ensures { result ≡ gcd a b }
{
    let mut greater = a;
    let mut lesser = b;
    while lesser != 0 {
        let rest = greater % lesser;
        greater = lesser;
        lesser = rest;
    }
    greater
}

/// Returns the least common multiple, unless it is above the finest denominator.
#[tactic(auto, using(crate::proofs::Euclid::lcm_above, crate::proofs::Euclid::lcm_below))]
pub fn least_common_multiple(a: u128, b: u128) -> Option<u128>
    requires a_some { 1 ≤ a }
    requires a_fine { a ≤ finest }
    requires b_some { 1 ≤ b }
    requires b_fine { b ≤ finest }
    ensures value { MatchOption result (finest < lcm a b) (λ m. m ≡ lcm a b) }
    ensures fine { MatchOption result (finest < lcm a b) (λ m. m ≤ finest) }
{
    if a == b {
        return Some(a);
    }
    if a == 1 {
        return Some(b);
    }
    if a <= MOST_NARROW && b <= MOST_NARROW {
        return narrow_multiple(a as u64, b as u64);
    }
    wide_multiple(a, b)
}

// Returns the least common multiple of numbers of 64 bits: their product fits 128 bits.
#[tactic(auto, using(crate::proofs::Euclid::narrow_multiples))]
fn narrow_multiple(a: u64, b: u64) -> Option<u128>
    requires a_some { 1 ≤ a }
    requires b_some { 1 ≤ b }
    ensures value { MatchOption result (finest < lcm a b) (λ m. m ≡ lcm a b) }
    ensures fine { MatchOption result (finest < lcm a b) (λ m. m ≤ finest) }
{
    if a % b == 0 {
        return Some(u128::from(a));
    }
    if b % a == 0 {
        return Some(u128::from(b));
    }
    let multiple = u128::from(a / narrow_divisor(a, b)) * u128::from(b);
    if multiple > FINEST {
        return None;
    }
    Some(multiple)
}

// Returns the least common multiple of greater numbers: a division says whether it is above the finest denominator.
#[tactic(auto, using(crate::proofs::Euclid::wide_multiples))]
fn wide_multiple(a: u128, b: u128) -> Option<u128>
    requires a_some { 1 ≤ a }
    requires b_some { 1 ≤ b }
    requires b_fine { b ≤ finest }
    ensures value { MatchOption result (finest < lcm a b) (λ m. m ≡ lcm a b) }
    ensures fine { MatchOption result (finest < lcm a b) (λ m. m ≤ finest) }
{
    let factor = a / greatest_common_divisor(a, b);
    if factor > FINEST / b {
        return None;
    }
    Some(factor * b)
}
