//! This crate finds bounded reachability by value iteration: exactly k rounded Bellman steps from an opening table
//! (Baier and Katoen, Principles of Model Checking, 2008, chapter 10), by several workers.
//!
//! [`bounded`] gives the k-fold down step and the k-fold up step of the table. These are the same numbers for every
//! number of workers and every schedule: each step reads one table of bounds and writes another, and each entry has one
//! writer. [`laws`] says how near they are to the exact values. No contract says which worker runs when, or that two of
//! them run at the same time. [`bounded_values`] starts from the table that iteration opens with.
#![tactic(auto)]

mod fork;
pub mod laws;
mod limits;
mod part;
mod sweep;
mod tables;
mod values;

pub use limits::{MOST_STEPS, MOST_WORKERS};
pub use sweep::{Sweep, bounded};
pub use values::bounded_values;
