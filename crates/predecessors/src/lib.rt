//! This crate makes lists over the choices of a game: for each state the choices that lead to it, and for each choice
//! whether a fact holds for it.
//!
//! The choices that lead to a state are the transpose of the graph, in one flat list. [`Predecessors::of_game`] makes
//! the lists, and [`Predecessors::of_state`] gives the list of a state, as [`Move`]s: a state and one of its choices.
//! The lists are exact: a choice is in the list of a state exactly if one of its edges leads there
//! (`specs/Lists.antt`). [`mark_predecessors`] marks the states of a list.
//!
//! The lists come from a counting sort of the edges by successor, in time linear in the states, choices and edges
//! (Cormen, Leiserson, Rivest and Stein, Introduction to Algorithms, section 8.2; for the transpose of a graph its
//! chapter 22). They take four bytes for each state and eight bytes for each edge, also while they are made.
//!
//! [`ChoiceFlags::of_game`] asks a test about each choice and keeps the answers, and [`ChoiceFlags::has`] gives the
//! answer for a choice. The choices of a state come after those of all states below it. The test says what a flag
//! means: each flag is an answer that the test may give for its choice (`specs/Flags.antt`). So if the test answers
//! true exactly when a fact holds, the flags say where the fact holds. The test is asked once for each choice, in one
//! pass. The flags take one byte for each choice, and two reads find one.
//!
//! No contract states time or memory.
#![tactic(auto)]

mod flags;
mod lists;
mod marks;
mod sorting;

pub use flags::ChoiceFlags;
pub use lists::{Move, Predecessors};
pub use marks::mark_predecessors;
