//! This module has the unit and the limits, each in one place.

/// Probability 1 is this many units. A value is a whole number of units from 0 to this number.
pub const UNIT: u64 = 1_000_000_000_000_000;

/// A game has at most this many states.
pub const MOST_STATES: u32 = 1_000_000;

/// A state has at most this many choices.
pub const MOST_CHOICES: u32 = 16_384;
