//! This module keeps the value of a choice before it is rounded.

ghost use Rattle.std.specs.Prelude.{◌≡◌, ◌+◌, ◌*◌, ◌/◌, ◌<◌, ◌≤◌, IsTrue, ◌↔◌};
ghost use Rattle.game_model.specs.Limits.{unit, total_bound};

use game_model::UNIT;
use std::num::{nearest_u64_to_f64, saturating_f64_to_u64};

/// This is the greatest total whose product with the unit fits 64 bits.
pub const MOST_NARROW: u128 = 18_446;

/// This is 2 to the power 64.
const WORD: u128 = 18_446_744_073_709_551_616;

/// This is `WORD` in floating point.
const FLOAT_WORD: f64 = 18_446_744_073_709_551_616.0;

/// A quotient is a weighted sum of units over its total. It is compared without a division.
#[derive(Clone, Copy)]
pub struct Quotient {
    sum: u128,
    total: u128,
    ghost positive: { 0 < total },
    ghost whole: { sum ≤ total * unit },
    ghost small: { total < total_bound },
}

impl Quotient {
    ghost use Rattle.fixed_bellman.specs.Quotients.{rounded_down, rounded_up};

    /// Makes the quotient of a sum of units and a total.
    pub fn new(sum: u128, total: u128) -> Quotient
        requires positive { 0 < total }
        requires whole { sum ≤ total * unit }
        requires small { total < total_bound }
        ensures sum { result.sum ≡ sum }
        ensures total { result.total ≡ total }
    {
        Quotient { sum, total }
    }

    /// Rounds the quotient down.
    pub fn down(self) -> u64
        ensures value { result ≡ rounded_down self }
        ensures units { result ≤ unit }
    {
        if self.total <= MOST_NARROW {
            return self.sum as u64 / self.total as u64;
        }
        divided(self.sum, self.total)
    }

    /// Rounds the quotient up.
    pub fn up(self) -> u64
        ensures value { result ≡ rounded_up self }
        ensures units { result ≤ unit }
    {
        if self.total <= MOST_NARROW {
            let total = self.total as u64;
            return (self.sum as u64 + (total - 1)) / total;
        }
        divided(self.sum + (self.total - 1), self.total)
    }

    /// Returns whether the quotient, rounded down, is above a floor.
    pub fn down_above(self, floor: u64) -> bool
        requires { floor ≤ unit }
        ensures { IsTrue result ↔ (floor < rounded_down self) }
    {
        if self.total <= MOST_NARROW {
            return self.sum as u64 >= (floor + 1) * self.total as u64;
        }
        self.sum >= (u128::from(floor) + 1) * self.total
    }

    /// Returns whether the quotient, rounded down, is below a ceiling.
    pub fn down_below(self, ceiling: u64) -> bool
        requires { ceiling ≤ unit }
        ensures { IsTrue result ↔ (rounded_down self < ceiling) }
    {
        if self.total <= MOST_NARROW {
            return (self.sum as u64) < ceiling * self.total as u64;
        }
        self.sum < u128::from(ceiling) * self.total
    }

    /// Returns whether the quotient, rounded up, is above a floor.
    pub fn up_above(self, floor: u64) -> bool
        requires { floor ≤ unit }
        ensures { IsTrue result ↔ (floor < rounded_up self) }
    {
        if self.total <= MOST_NARROW {
            return self.sum as u64 > floor * self.total as u64;
        }
        self.sum > u128::from(floor) * self.total
    }

    /// Returns whether the quotient, rounded up, is below a ceiling.
    pub fn up_below(self, ceiling: u64) -> bool
        requires { ceiling ≤ unit }
        ensures { IsTrue result ↔ (rounded_up self < ceiling) }
    {
        if self.total <= MOST_NARROW {
            let total = self.total as u64;
            return self.sum as u64 + total <= ceiling * total;
        }
        self.sum + self.total <= u128::from(ceiling) * self.total
    }
}

/// Divides a number by a total, from an estimate. Whatever the estimate is, exact products correct it.
fn divided(above: u128, total: u128) -> u64
    requires positive { 0 < total }
    requires small { total < total_bound }
    requires fits { above < total * (unit + 1) }
    ensures { result ≡ above / total }
{
    let guess = lowered(above, total, estimate(above, total).min(UNIT));
    raised(above, total, guess)
}

/// Estimates the quotient in floating point. It is mostly at most one off.
fn estimate(above: u128, total: u128) -> u64 {
    saturating_f64_to_u64(float_of(above) / float_of(total))
}

/// Returns a number in floating point.
fn float_of(number: u128) -> f64 {
    let high = nearest_u64_to_f64((number / WORD) as u64);
    let low = nearest_u64_to_f64((number % WORD) as u64);
    high * FLOAT_WORD + low
}

/// Returns the first number from a guess downward whose product with the total is not above a number.
fn lowered(above: u128, total: u128, mut guess: u64) -> u64
    requires small { total < total_bound }
    requires units { guess ≤ unit }
    ensures units { result ≤ unit }
    ensures below { result * total ≤ above }
{
    while u128::from(guess) * total > above {
        guess -= 1;
    }
    guess
}

/// Divides a number by a total, from a guess upward.
fn raised(above: u128, total: u128, mut guess: u64) -> u64
    requires positive { 0 < total }
    requires fits { above < total * (unit + 1) }
    requires below { guess * total ≤ above }
    ensures { result ≡ above / total }
{
    let mut rest = above - u128::from(guess) * total;
    while rest >= total {
        rest -= total;
        guess += 1;
    }
    guess
}
