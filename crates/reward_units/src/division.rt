//! This module divides in units: the whole part is taken by itself, so that each product fits 128 bits.

ghost use Rattle.std.specs.Prelude.{◌≡◌, ◌<◌, ◌≤◌, ◌+◌, ◌*◌, ◌^◌};
ghost use Rattle.game_model.specs.Limits.{unit};
ghost use Rattle.fractions.specs.Limits.{finest};
ghost use Rattle.reward_units.specs.Units.{most_places};

/// A division gives units, and a rest remains.
#[derive(Clone, Copy)]
pub struct Quotient {
    /// These are the units.
    pub units: u128,
    /// This is what remains, over the denominator.
    pub rest: u128,
}

/// Divides a fraction below 10^15 + 1 into units of this many places.
pub fn divide(num: u128, den: u128, places: u32) -> Quotient
    requires small { num < (unit + 1) * den }
    requires fine { den ≤ finest }
    requires places { places ≤ most_places }
    ensures whole { result.units * den + result.rest ≡ num * 10 ^ places }
    ensures rest { result.rest < den }
    ensures fits { result.units < (unit + 1) * 10 ^ places }
{
    let power = 10u128.pow(places);
    let whole = num / den * power;
    let part = num % den * power;
    Quotient {
        units: whole + part / den,
        rest: part % den,
    }
}
