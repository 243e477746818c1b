//! These are the limits of a transition file, as `specs/Limits.antt` defines them: `laws::limits` says so.

/// A header states at most this many choices. The number of a choice is below it.
pub const MOST_STATED_CHOICES: u32 = 4_000_000;

/// A text has at most this many transition lines.
pub const MOST_LINES: u32 = 8_000_000;
