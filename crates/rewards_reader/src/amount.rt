//! This module has rewards as exact fractions.

ghost use Rattle.std.specs.Prelude.{◌≡◌, ◌≤◌, ◌*◌};
ghost use Rattle.std.specs.Int.{IsGcd};
ghost use Rattle.fractions.specs.Limits.{finest};
ghost use Rattle.rewards_reader.specs.Amounts.{IsAmount, no_reward};
ghost use Rattle.rewards_reader.specs.Limits.{most_reward};

use fractions::Frac;
use std::marker::Model;

/// An amount is a reward: a number from 0 to 10^15 in lowest terms, with a denominator of at most 10^23. Contracts see
/// it as a fraction.
#[derive(Clone, Copy, Debug, PartialEq, Eq)]
pub struct Amount {
    num: u128,
    den: u128,
}

impl Model for Amount {
    ghost use Rattle.fractions.specs.Fraction.{Fraction};
    ghost use Rattle.rewards_reader.specs.Amounts.{IsAmount};

    ghost Value = { Fraction };

    ghost view = { λ f. record { num = f.num; den = f.den } };

    ghost invariant = { λ f. IsAmount (record { num = f.num; den = f.den }) };

    ghost inverse = { λ f. record { num = f.num; den = f.den } };
}

impl Amount {
    /// Returns the reward 0.
    pub fn zero() -> Amount
        ensures { result ≡ no_reward }
    {
        Amount { num: 0, den: 1 }
    }

    /// Returns the amount of these numbers, which are in lowest terms.
    pub(crate) fn of(num: u128, den: u128) -> Amount
        requires lowest { IsGcd num den 1 }
        requires positive { 1 ≤ den }
        requires fine { den ≤ finest }
        requires small { num ≤ most_reward * den }
        ensures { result ≡ record { num = num; den = den } }
    {
        Amount { num, den }
    }

    /// Returns the amount of a number from 0 to 2.
    pub(crate) fn of_number(number: &Frac) -> Amount
        ensures { result ≡ number.now }
    {
        number.invariant();
        Amount::of(number.num(), number.den())
    }

    /// Tells a proof which facts hold for every amount. It does nothing.
    pub fn invariant(&self)
        ensures { IsAmount self.now }
    {
        let _ = &self.num;
    }

    /// Returns the numerator.
    pub fn num(&self) -> u128
        ensures value { result ≡ self.now.num }
        ensures small { result ≤ most_reward * self.now.den }
        ensures bounded { result ≤ most_reward * finest }
    {
        self.num
    }

    /// Returns the denominator.
    pub fn den(&self) -> u128
        ensures value { result ≡ self.now.den }
        ensures positive { 1 ≤ result }
        ensures fine { result ≤ finest }
    {
        self.den
    }
}
