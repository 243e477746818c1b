//! This crate finds the states that the goals attract, backward, when some states and choices are excluded (attractors:
//! Grädel, Thomas and Wilke, Automata, Logics, and Infinite Games, 2002, chapter 2; here chance is on the maximiser's
//! side).
//!
//! [`attractor_of`] gives them. [`Excluded`] says which states and choices are excluded; [`ExcludedDead`] excludes the
//! dead states and nothing else. [`meets`] says whether a choice leads into a set. [`first_unserved`] gives the first
//! choice of a state that is excluded or does not lead into it, and [`complement`] gives the states that are not in it.
//!
//! The set grows from the goals. A choice serves if it is not excluded and has a successor in the set. A state of the
//! maximiser joins when one of its choices serves, and a state of the minimiser when all of them do. The contract says
//! how the set grew and that it grows no more (`specs/Attractor.antt`): so if the goals have a property of sets, and
//! each state keeps it when it joins, the attractor has it. The attractor is the least set that has the goals and
//! attracts no other state that is not excluded ([`laws`]).
//!
//! Each member is taken off an order once, and the choices that lead to it are followed: a state of the maximiser joins
//! by the first one that is not excluded; a state of the minimiser waits for one choice at a time. When many members
//! are in the order, the states outside are tested one after another instead (Beamer, Asanović and Patterson,
//! Direction-optimizing breadth-first search, 2012). The time is linear in the edges, with at most 16 such passes. The
//! contract does not state it.
#![tactic(auto)]

mod attractor;
mod excluded;
pub mod laws;
mod membership;
mod search;

pub use attractor::attractor_of;
pub use excluded::{Excluded, ExcludedDead};
pub use membership::{complement, first_unserved, meets};
