//! These are the limits of texts and tokens.

/// A text has at most this many bytes.
pub const LONGEST: usize = 4096;

/// A quoted name has at most this many bytes.
pub const LONGEST_NAME: usize = 255;
