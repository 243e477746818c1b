//! This crate checks upper tables: whether no k-step value of a question is above a table of units, and which choices
//! of the minimiser hold the maximiser to it.
//!
//! [`check_upper`] tests that no state's rounded-up Bellman value is above its entry, and else names the first fault. A
//! table that passes is inductive, so no k-step value is above it (a fixed-point argument after Park; as a certificate
//! it is used by Hartmanns and Kaminski, Optimistic value iteration, CAV 2020). [`replies`] gives for such a table a
//! memoryless strategy of the minimiser, and [`check_replies`] tests one: if it is played, every opponent is held to
//! the table at every horizon. [`swap`] gives the question of the other side, whose lower bounds give upper bounds of
//! the question. The checks take no memory.
#![tactic(auto)]

mod dual;
mod held;
pub mod laws;
mod reply;
mod upper;

pub use dual::swap;
pub use reply::{check_replies, replies};
pub use upper::{UpperCause, UpperFault, check_upper};
