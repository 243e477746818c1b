//! This module has the limits, as `specs/Units.antt` defines them: `laws::limits` says so.

/// A unit has at most this many places.
pub const MOST_PLACES: u32 = 15;

/// A reward has at most this many units, one more than a value may have. It stands for every greater reward.
pub const MOST_UNITS: u64 = 1_000_000_000_000_001;
