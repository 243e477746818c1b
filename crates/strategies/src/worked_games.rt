//! This module counts plays by hand, in games that are small enough.
//!
//! No function here does anything: its contract is the example.
//!
//! - [`ways`]: all plays of three turns, and how many of their ways are won, lost, or won next.
//! - [`players`]: what strategies with memory and with dice reach.

pub mod players;
pub mod ways;
