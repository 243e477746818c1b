//! This module has fractions over a power of ten. Numerator and denominator are of 64 bits.

ghost use Rattle.std.specs.Prelude.{◌≡◌, ◌≢◌, ◌≤◌, ◌<◌, ◌*◌, ◌/◌, ◌%◌, ◌^◌, ◌⊎◌};
ghost use Prim.Native.Nat.{◌∣◌};
ghost use Rattle.fractions.specs.Number.{fraction_said};

use crate::fraction::Frac;
use crate::lowest::checked;
use crate::number::NumberFault;

/// This is a fraction over a power of ten, or what is left of one after factors are taken out.
#[derive(Clone, Copy)]
pub struct Tens {
    num: u64,
    den: u64,
    ghost tens: { den ∣ 10 ^ 19 },
}

impl Tens {
    /// Returns the fraction of these numbers.
    pub fn new(num: u64, den: u64) -> Tens
        requires { den ∣ 10 ^ 19 }
        ensures num { result.num ≡ num }
        ensures den { result.den ≡ den }
    {
        Tens { num, den }
    }

    /// Returns the fraction in lowest terms, if it is in range.
    #[inline(always)]
    pub fn fraction(self) -> Result<Frac, NumberFault>
        ensures { result ≡ fraction_said (record { num = self.num; den = self.den }) }
    {
        if self.num == 0 {
            return Ok(Frac::of(0, 1));
        }
        let rest = self.without_twos().without_fives();
        checked(u128::from(rest.num), u128::from(rest.den))
    }

    // Takes out two as often as it divides both numbers.
    fn without_twos(self) -> Tens
        requires { 1 ≤ self.num }
        ensures value { result.num * self.den ≡ self.num * result.den }
        ensures out { (result.num % 2 ≢ 0) ⊎ (result.den % 2 ≢ 0) }
    {
        let twos = twos_in(self.num).min(twos_in(self.den));
        Tens {
            num: self.num >> twos,
            den: self.den >> twos,
        }
    }

    // Takes out five as often as it divides both numbers.
    fn without_fives(self) -> Tens
        ensures value { result.num * self.den ≡ self.num * result.den }
        ensures num { result.num ∣ self.num }
        ensures den { result.den ∣ self.den }
        ensures out { (result.num % 5 ≢ 0) ⊎ (result.den % 5 ≢ 0) }
    {
        let mut num = self.num;
        let mut den = self.den;
        while num % 5 == 0 && den % 5 == 0 {
            num /= 5;
            den /= 5;
        }
        Tens { num, den }
    }
}

// Returns how often two is a factor of a number.
fn twos_in(number: u64) -> u32
    requires { 1 ≤ number }
    ensures whole { 2 ^ result ∣ number }
    ensures out { number / 2 ^ result % 2 ≢ 0 }
    ensures small { result < 64 }
{
    number.trailing_zeros()
}
