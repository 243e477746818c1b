//! This module has the limits, as `specs/Limits.antt` defines them: `laws::limits` says so.

/// This is the greatest denominator of a fraction, and of a choice.
pub const FINEST: u128 = 100_000_000_000_000_000_000_000;

/// A decimal with this many places has the greatest denominator.
pub const FINEST_PLACES: u32 = 23;

/// A fraction is at most this number.
pub const MOST_VALUE: u128 = 2;
