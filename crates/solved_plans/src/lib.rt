//! This crate makes a proved plan from tables of any origin.
//!
//! A solver that nobody trusts finds a lower and an upper table, by any method ([`Candidates`]). [`certify`] makes a
//! plan of them that passes the checks of an audit, whatever they are, if the almost-sure states and the zero set are
//! known. The graph decides where a value is 1 or 0: the lower bound is 1 exactly at the almost-sure states, and the
//! upper one 0 exactly in the zero set. Elsewhere the candidates count, as long as choices and ranks prove the lower
//! table and the upper one is inductive. A table that is refused gives way to the one that knows only these two sets.
//! How near the bounds are is no part of the contract.
#![tactic(auto)]

mod held;
pub mod laws;
mod plan;
mod reached;
mod tables;

pub use plan::{Candidates, certify};
