//! This module has the limits, as `specs/Limits.antt` defines them: `laws::limits` says so.

/// A choice has at most this many parts.
pub const MOST_PARTS: usize = 8_000_000;

/// The weights of a choice miss the common denominator by at most one part in this many.
pub const TOLERANCE: u128 = 100_000;
