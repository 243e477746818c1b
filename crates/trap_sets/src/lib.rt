//! This crate finds the traps of a question whose minimiser has chosen its replies, and lowers upper tables on them.
//!
//! If play can stay in a set of states for ever, an upper table can stay above every way out of the set, because each
//! entry is held up by the others, and rounded-up steps never lower it. Such sets are the end components of the
//! question in which the minimiser plays its replies (Haddad and Monmege, Reachability in MDPs: refining convergence of
//! interval iteration, RP 2014; Brázdil and others, Verification of Markov decision processes using learning
//! algorithms, ATVA 2014; in games Kelmendi, Krämer, Křetínský and Weininger, Value iteration for simple stochastic
//! games, CAV 2018). A trap is a greatest end component (`specs/Ends.antt`).
//!
//! [`traps`] gives the traps, numbered. [`lower_traps`] lowers a table at the states of each trap to its best exit: the
//! greatest rounded-up value of a choice by which the maximiser can leave it (`specs/Exits.antt`). The lowered table
//! passes the checks that the table passed, with the same replies, so it is above every k-step value. [`traps_over`]
//! and [`lower_traps_over`] do so over lists of predecessors that the caller has.
//!
//! A table is lowered once, by exits over the given table, so a second call or further steps may lower it further. No
//! clause says how near it comes to the values. Other replies have other traps.
//!
//! The traps are found in rounds, over parts of the states. The first part has all states that are neither goal nor
//! dead. A choice is internal if all its successors are in the part of its state. A round takes three steps:
//!
//! 1. Every second round, it divides each part into the strongly connected components of its internal choices
//!    (`components`). Most often the third step breaks off a few states, and their removal is all that is left to do.
//! 2. It takes their part from the states that have no internal choice, and from those that have none left then. This
//!    is done once before the first round, too.
//! 3. It searches from the root of each part, by the choices that are internal then, back and on. If one of the
//!    searches misses a state of the part, the part is broken up there, and another round follows (Fleischer,
//!    Hendrickson and Pinar, On identifying strongly connected components in parallel, 2000).
//!
//! In the end the states of each part reach each other, and a state without an internal choice is the only one in its
//! part (Baier and Katoen, Principles of Model Checking, 2008, algorithm 47).
//!
//! No proof says that the first two steps find all that they search for; it says that they cut no end component. The
//! third step is exact, and decides. A round takes time linear in the states, choices and edges. There are as many
//! rounds as sets that break up one within another, and most often there is one. A chain or a walk of any length takes
//! one more, because removal goes on backward at once. The time is no part of the contract.
#![tactic(auto)]

mod arena;
mod breaking;
mod choices;
mod divide;
mod internal;
mod lower;
mod numbers;
mod reach;
mod reply_mdp;
mod rounds;
mod trim;

pub use lower::{lower_traps, lower_traps_over};
pub use numbers::{TrapSets, traps, traps_over};
