//! These are the tests of the crates that compute over games: events of a world, threads that race, workers, sweeps,
//! brackets, and guesses by several workers. Each call of these crates has a worked example.
//!
//! The tests are in a crate above these crates, because a test in a crate proves that crate once more.
#![tactic(auto)]

#[cfg(test)]
mod bounded;
#[cfg(test)]
mod brackets;
#[cfg(test)]
mod closing;
#[cfg(test)]
mod counted;
#[cfg(test)]
mod drawn;
#[cfg(test)]
mod inductive;
#[cfg(test)]
mod lower_guesses;
#[cfg(test)]
mod nested_formulas;
#[cfg(test)]
mod parallel_guesses;
#[cfg(test)]
mod ranks;
#[cfg(test)]
mod sets;
#[cfg(test)]
mod traps;
#[cfg(test)]
mod up_steps;
#[cfg(test)]
mod upper_guesses;
#[cfg(test)]
mod workers;
#[cfg(test)]
mod worlds;
