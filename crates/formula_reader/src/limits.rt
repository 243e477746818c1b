//! These are the limits of formulas.

/// At most this many `(`, `!` and `[` of formulas inside may be open at once.
pub const MOST_NESTED: u32 = 64;

/// `F<=` and `U<=` have at most this many steps.
pub const MOST_STEPS: u32 = 1_000_000;
