//! This module gives an exact reward in units.

ghost use Rattle.std.specs.Prelude.{◌≡◌, ◌≤◌};
ghost use Rattle.fractions.specs.Limits.{finest};
ghost use Rattle.reward_units.specs.Units.{most_places, units_below, units_above, capped};

use crate::division::divide;
use crate::limits::MOST_UNITS;
use game_model::UNIT;

/// Returns the units of an exact reward, rounded down, or [`MOST_UNITS`] if they are more than 10^15. The reward is
/// this numerator over this denominator.
pub fn units_below(num: u128, den: u128, places: u32) -> u64
    requires divided { 1 ≤ den }
    requires fine { den ≤ finest }
    requires places { places ≤ most_places }
    ensures { result ≡ units_below (record { num = num; den = den }) places }
{
    if num / den > u128::from(UNIT) {
        return MOST_UNITS;
    }
    cap(divide(num, den, places).units)
}

/// Returns the units of an exact reward, rounded up, or [`MOST_UNITS`] if they are more than 10^15. The reward is this
/// numerator over this denominator.
pub fn units_above(num: u128, den: u128, places: u32) -> u64
    requires divided { 1 ≤ den }
    requires fine { den ≤ finest }
    requires places { places ≤ most_places }
    ensures { result ≡ units_above (record { num = num; den = den }) places }
{
    if num / den > u128::from(UNIT) {
        return MOST_UNITS;
    }
    let quotient = divide(num, den, places);
    if quotient.rest == 0 {
        cap(quotient.units)
    } else {
        cap(quotient.units + 1)
    }
}

/// Returns a number of units, but at most `MOST_UNITS`.
fn cap(units: u128) -> u64
    ensures { result ≡ capped units }
{
    if units < u128::from(MOST_UNITS) {
        units as u64
    } else {
        MOST_UNITS
    }
}
