//! This crate answers formulas with formulas inside (nested PCTL, Hansson and Jonsson 1994) by sound bounds.
//!
//! Each formula inside is answered first, at every state: by rounds or by a solver (`formula_truth::Way`), or, with a
//! bound on the steps, by as many steps. If its bounds settle its threshold at a state, it holds or fails there, and
//! else it is left undecided. The lower bounds of a formula are those of the question of the states where its sides
//! surely hold. Its upper bounds are those of the question of the states where they possibly do. `formula_truth`
//! defines what is true, and what bounds surely and possibly say.
//!
//! [`nested`] gives the bounds of the outermost formula. They are sound for its exact question, in which each formula
//! inside holds where it is true.
#![tactic(auto)]

mod answer;
mod answering;
mod bounds;
mod judging;
mod known_sets;
pub mod laws;
mod operators;
mod questions;
mod run;
mod setting;
mod states;
mod sweeps;

pub use answer::Nested;
pub use run::nested;
