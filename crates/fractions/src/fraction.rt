//! This module has fractions.

ghost use Rattle.std.specs.Prelude.{◌≡◌, ◌<◌, ◌≤◌, ◌+◌, ◌*◌, ◌^◌};
ghost use Rattle.std.specs.Int.{IsGcd};
ghost use Rattle.fractions.specs.Limits.{finest, most_value};
ghost use Rattle.fractions.specs.Fraction.{fraction_cmp, rest_of, IsFraction};

use std::cmp::Ordering;
use std::marker::Model;

/// A fraction is a number from 0 to 2 in lowest terms, with a denominator of at most 10^23.
#[derive(Clone, Copy, Debug, PartialEq, Eq)]
pub struct Frac {
    num: u128,
    den: u128,
}

impl Model for Frac {
    ghost use Rattle.fractions.specs.Fraction.{Fraction, IsFraction};

    ghost Value = { Fraction };

    ghost view = { λ f. record { num = f.num; den = f.den } };

    ghost invariant = { λ f. IsFraction (record { num = f.num; den = f.den }) };

    ghost inverse = { λ f. record { num = f.num; den = f.den } };
}

impl Frac {
    /// Tells a proof which facts hold for every fraction. It does nothing.
    pub fn invariant(&self)
        ensures { IsFraction self.now }
    {
        let _ = &self.num;
    }

    // Returns the fraction of these numbers, which are in lowest terms.
    pub(crate) fn of(num: u128, den: u128) -> Frac
        requires lowest { IsGcd num den 1 }
        requires positive { 1 ≤ den }
        requires fine { den ≤ finest }
        requires small { num ≤ most_value * den }
        ensures { result ≡ record { num = num; den = den } }
    {
        Frac { num, den }
    }

    /// Returns the numerator.
    pub fn num(&self) -> u128
        ensures value { result ≡ self.now.num }
        ensures small { result ≤ most_value * self.now.den }
        ensures bounded { result ≤ most_value * finest }
    {
        self.num
    }

    /// Returns the denominator.
    pub fn den(&self) -> u128
        ensures value { result ≡ self.now.den }
        ensures positive { 1 ≤ result }
        ensures fine { result ≤ finest }
    {
        self.den
    }

    /// Returns 1 less this number.
    pub fn rest(&self) -> Frac
        requires { self.now.num ≤ self.now.den }
        ensures { result ≡ rest_of self.now }
    {
        Frac::of(self.den - self.num, self.den)
    }
}

/// Returns the order of two fractions by value.
pub fn compare(a: &Frac, b: &Frac) -> Ordering
    ensures { result ≡ fraction_cmp a.now b.now }
{
    let left = wide_product(a.num(), b.den());
    let right = wide_product(b.num(), a.den());
    left.high.cmp(&right.high).then(left.low.cmp(&right.low))
}

// A wide number says how often 2^64 goes into it, and what remains.
#[derive(Clone, Copy)]
struct Wide {
    high: u128,
    low: u128,
}

const WORD: u128 = 18_446_744_073_709_551_616;

fn wide_product(a: u128, b: u128) -> Wide
    requires a_small { a < 2 ^ 82 }
    requires b_small { b < 2 ^ 82 }
    ensures value { result.high * 2 ^ 64 + result.low ≡ a * b }
    ensures low { result.low < 2 ^ 64 }
{
    let (a_high, a_low) = (a / WORD, a % WORD);
    let (b_high, b_low) = (b / WORD, b % WORD);
    let lowest = a_low * b_low;
    let middle = a_high * b_low + a_low * b_high + lowest / WORD;
    Wide {
        high: a_high * b_high * WORD + middle,
        low: lowest % WORD,
    }
}
