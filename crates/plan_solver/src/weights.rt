//! This module makes weights into numbers in floating point.

ghost use Rattle.std.specs.Prelude.{◌^◌, ◌<◌, ◌↔◌, IsTrue};

use std::num::nearest_u64_to_f64;

/// This is two to the 64th.
const HIGH: u128 = 18_446_744_073_709_551_616;

/// Returns whether weights with this total fit 64 bits.
pub(crate) fn is_narrow(total: u128) -> bool
    ensures { IsTrue result ↔ (total < 2 ^ 64) }
{
    total < HIGH
}

/// Returns a weight as a float, up to rounding.
pub(crate) fn float_of(weight: u128) -> f64 {
    let low = u64::try_from(weight % HIGH).unwrap_or(u64::MAX);
    let high = u64::try_from(weight / HIGH).unwrap_or(u64::MAX);
    if high == 0 {
        nearest_u64_to_f64(low)
    } else {
        nearest_u64_to_f64(high) * 18_446_744_073_709_551_616.0 + nearest_u64_to_f64(low)
    }
}
