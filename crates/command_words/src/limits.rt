//! The numbers of a command line have these limits, and these values if no word says them.

/// A run has at most this many rounds.
pub const MOST_ROUNDS: i64 = 1_000_000;

/// A round has at most this many workers.
pub const MOST_WORKERS: i64 = 64;

/// A run has at most this many rounds if the words do not say how many.
pub const DEFAULT_ROUNDS: u32 = 10_000;

/// A round has at most this many workers if the words do not say how many.
pub const DEFAULT_WORKERS: u32 = 4;

/// This is the greatest seed of a game that is made.
pub const MOST_SEED: i64 = 2_147_483_646;

/// A game that is made has at least this many states.
pub const LEAST_STATES: i64 = 3;

/// A game that is made has at most this many states.
pub const MOST_STATES: i64 = 1_000_000;
