//! This module has the limits of spelled numbers. `laws::limits` says that `specs/Limits.antt` defines the same.

/// A decimal without its exponent, and each side of a quotient, has at most this many digits.
pub const MOST_DIGITS: usize = 30;

/// An exponent has at most this many digits.
pub const MOST_EXPONENT_DIGITS: usize = 3;

/// An exponent is at most this far from 0.
pub const MOST_EXPONENT: u32 = 99;
