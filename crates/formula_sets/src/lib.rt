//! This crate gives the question that a formula poses about a game whose states have labels and owners.
//!
//! `pose` gives the question, which says who chooses at each state and which states are goals or dead, and the initial
//! states. If the formula poses none, it gives the first reason: an unknown label or player, or no initial state.
//! `pose_next` gives the question of a formula with `X`, whose states have no marks, and the table from which its one
//! step is taken.
//!
//! ```text
//! let formula = read_formula(alloc, "<<p1>> P>=0.5 [ F \"goal\" ]")?;
//! let posed = pose(alloc, &game, &labels, &owners, &formula)?;
//! ```
//!
//! With `U` and `F` a goal is a state where the right side holds, and a dead state is one where neither side holds. A
//! coalition maximises under `>=`, `>` and `Pmax`, and minimises under `<=`, `<` and `Pmin`, against all others. If no
//! coalition is named, one side chooses at all states: the one that meets a bound only if every choice meets it, or the
//! one that is asked. A formula with `G` poses no question itself: its dual does.
#![tactic(auto)]

mod bounds;
mod fault;
mod flat;
mod labels;
pub mod laws;
mod marks;
mod next;
mod question;
mod sides;

pub use fault::PoseFault;
pub use flat::is_flat;
pub use labels::{marks_of_label, same_marks};
pub use marks::{intersect, negate, unite};
pub use next::{PosedNext, pose_next, units_of};
pub use question::{Posed, initial_of, pose, sides_of};
