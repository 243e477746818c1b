//! This crate finds values and a policy of a local game in floating point: by sweeps while these converge fast, and
//! then by strategy iteration (Hoffman and Karp, On nonterminating stochastic games, 1966; Condon, The complexity of
//! stochastic games, 1992) with sweeps between the evaluations of policies. The chain of a policy is evaluated by
//! elimination if its band is narrow (`elimination`), and else by steps in a Krylov space (`krylov`).
//!
//! [`solve`] finds both from initial values and an initial policy. A choice of the maximiser is changed only for one
//! that is worth more. So a policy that leaves the game with probability 1 at first goes on to do so, because in a
//! closed set gains are 0 on average. The minimiser's replies are found before the maximiser's choices are changed.
//!
//! [`refine`] makes values of a policy nearer once more, from what they miss, and [`expected_moves`] says how many
//! moves a policy makes before it leaves.
//!
//! Values are promised only to be from 0 to the unit when they are found. A caller tests them for what it needs. Each
//! loop makes at most a fixed number of turns. [`Factors`] and [`approach`] are public for their tests.
#![tactic(auto)]

mod elimination;
mod evaluation;
mod exchange;
mod iteration;
mod krylov;
mod limits;
mod pace;
mod slide;
mod solving;
mod vectors;

pub use elimination::Factors;
pub use evaluation::{expected_moves, refine};
pub use krylov::approach;
pub use slide::{Slide, find_slide};
pub use solving::{solve, solve_nearly};
