//! This crate solves a question: a solver that nobody trusts finds its bounds, and proved checks accept them.
//!
//! [`solve_question`] finds the sets that the graph decides, has `plan_solver` find tables between them, and hands out
//! the plan that `solved_plans` makes of these. If that leaves bounds far apart at a state that is asked about, rounds
//! are made over the same question, and a plan is made of the better table of each side. Its bounds are sound at every
//! state, whatever the solver found.
#![tactic(auto)]

mod better;
mod question;
mod wide;

pub use question::solve_question;
