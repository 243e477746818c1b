//! These are worked examples of the solver's kernels: components in the order of play, local games and chains over
//! floats, eliminations, steps in a Krylov space, values and policies, and tables of whole units and of rewards.
//!
//! The examples are in a crate above these crates, because a test in a crate proves that crate once more.
#![tactic(auto)]

#[cfg(test)]
mod chains;
#[cfg(test)]
mod games;
#[cfg(test)]
mod rewards;
#[cfg(test)]
mod rows;
#[cfg(test)]
mod search;
#[cfg(test)]
mod tables;
