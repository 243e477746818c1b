//! A run of rounds gives a bracket of a question: a table of sound lower bounds and a table of sound upper bounds, in
//! units.
//!
//! [`bracket`] is value iteration from below with the Bellman operator rounded down, by rounds of workers that race on
//! shared words (Baier and Katoen 2008, chapter 10; asynchronous iteration after Bertsekas 1982). A round updates only
//! states that may rise (`marked_rounds`). A run ends after the asked rounds, or when its lower bounds and those of the
//! swapped question are settled, or when a guess settles the rule at the initial states. What the contract ensures
//! holds for every schedule and number of workers. It does not say how near the two tables are to each other beyond the
//! values of as many steps, nor that two workers ran at once, nor that a run ends as early as it may. [`bracket_over`]
//! gives the same over lists of predecessors that the caller has. [`bracket_for`] gives it for a bound, with the zero
//! set.
//!
//! The workers of a [`ParallelSweep`] fill the tables of a guess: the table is the same for every number of them and
//! every schedule. One worker needs no thread.
#![tactic(auto)]

mod base;
mod bounds;
mod bracketed;
mod closing;
pub mod laws;
mod lower;
mod parallel_sweep;
mod race;
mod rounds;
mod run;
mod sides;
mod stopping;
mod tables;
mod upper;

pub use bounds::Bracket;
pub use bracketed::{Bracketed, bracket_for};
pub use parallel_sweep::ParallelSweep;
pub use run::{MOST_ROUNDS, bracket, bracket_over};
