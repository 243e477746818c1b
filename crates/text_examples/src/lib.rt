//! These are worked examples of each call that reads or writes texts: shelves and sinks, numbers, transition, label and
//! owner files, values, rewards, certificates, words, formulas, questions and verdicts. There are also examples of
//! gates that give up.
//!
//! The examples are in a crate above these crates, because a test in a crate proves that crate once more.
#![tactic(auto)]

#[cfg(test)]
mod audits;
#[cfg(test)]
mod duals;
#[cfg(test)]
mod formulas;
#[cfg(test)]
mod labels;
#[cfg(test)]
mod numbers;
#[cfg(test)]
mod outside;
#[cfg(test)]
mod plans;
#[cfg(test)]
mod questions;
#[cfg(test)]
mod reward_formulas;
#[cfg(test)]
mod reward_lines;
#[cfg(test)]
mod rewards;
#[cfg(test)]
mod transitions;
#[cfg(test)]
mod values;
#[cfg(test)]
mod verdict_lines;
#[cfg(test)]
mod words;
