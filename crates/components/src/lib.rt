//! This crate finds the strongly connected components of the states of a question, in the order of play (Tarjan,
//! Depth-first search and linear graph algorithms, 1972).
//!
//! [`Components::of_question`] finds them over the choices that are kept, and [`component_numbers`] finds only their
//! numbers. [`Keeps`] says which choices are kept: [`KeepsAll`] keeps every one, and the flags of choices keep those
//! that are flagged. Each state is in exactly one component, and the successors of a state by a kept choice are in its
//! component or in earlier ones (`specs/Order.antt`). So if the components are visited in their order, all to which a
//! component leads are done before it.
//!
//! The contract does not say that the states of a component lead to each other (`trap_sets` checks this where it
//! counts), nor that they follow the order of a given list, nor how long a search takes, which is linear in the edges.
//! The search itself is proved only to be safe and to end. When it is done, the order and the lists of members are
//! tested. If a test failed, which never happens, the answer would be one component of all states.
#![tactic(auto)]

mod division;
mod keeps;
mod lists;
mod order;
mod search;

pub use division::{Components, component_numbers};
pub use keeps::{Keeps, KeepsAll};
