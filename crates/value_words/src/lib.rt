//! This crate keeps the words that workers share: for each state a lower bound of its value and the choice that gave
//! it.
//!
//! [`ValueTable::start`] opens the words of a question, with a pass. A pass is the right to take steps on the words,
//! and carries what was seen of them; it takes no bytes. [`ValueTable::update`] raises the word of a state to its
//! Bellman step over the words, rounded down, from any number of threads, each with a pass from [`ValueTable::split`].
//! [`ValueTable::meet`] puts passes together, and [`ValueTable::close`] gives the final words. The invariant of the
//! crate `step_core` holds for the words between any two steps, whatever the schedule, and each step is one of its
//! events ([`laws`]). No call waits.
#![tactic(auto)]

pub mod laws;
mod pass;
mod rule;
mod table;

pub use pass::Pass;
pub use rule::{Posing, Sight};
pub use table::{ValueTable, Words};

/// Threads may share a table, and a pass may be handed on to a thread.
fn crosses_threads<P: Posing + Send + Sync>(table: &ValueTable<'_, P>, pass: &Pass<P>) {
    shares(table);
    hands_on(pass);
}

/// Threads may share this value.
fn shares<T: Sync>(_value: &T) {}

/// This value may be handed on to a thread.
fn hands_on<T: Send>(_value: &T) {}
