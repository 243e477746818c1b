//! This module has the numbers of the generator and the limits, as `specs/Limits.antt` defines them: `laws::limits`
//! says so.

/// A draw is multiplied by this number.
pub(crate) const MULTIPLIER: u64 = 48_271;

/// The product is divided by this number, and the remainder is the next draw.
pub(crate) const MODULUS: u64 = 2_147_483_647;

/// This is the greatest seed. The least is 1.
pub const MOST_SEED: u32 = 2_147_483_646;

/// A drawn game has at least this many states, and at most as many as any game.
pub const LEAST_STATES: u32 = 3;
