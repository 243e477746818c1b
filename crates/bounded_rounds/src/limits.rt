//! This module has each limit of a sweep in one place.

/// A sweep has at most this many steps.
pub const MOST_STEPS: u32 = 1_000_000;

/// A sweep has at most this many workers.
pub const MOST_WORKERS: u32 = 64;
