//! This crate draws a game from a seed, the same on every machine, so that a machine can be measured, and numbers of
//! workers compared, without a file.
//!
//! ```text
//! let drawn = draw_game(alloc, 7, 100_000)?;
//! let question = drawn.question(alloc)?;
//! ```
//!
//! [`draw_game`] gives the game of a seed from 1 to [`MOST_SEED`] and a number of states from [`LEAST_STATES`] on, and
//! [`Drawn::question`] asks with which probability the maximiser reaches the goal. State 0 is the initial state, the
//! last state is the sink, and the state before it is the goal; both belong to the maximiser, and lead only to
//! themselves.
//!
//! The rules are a fixed format (`specs/Rules.antt`). A draw replaces x, which at the start is the seed, by x * 48271
//! mod 2147483647. For each other state, in order, these are drawn: the side (even is the maximiser's), the number of
//! choices (1 plus the draw mod 3), and for each choice the number of parts (2 plus the draw mod 3) and for each part
//! the successor and the weight (1 plus the draw mod 9). The first part of a choice leads to the goal if its draw is
//! odd, and else to the sink; every other part leads to the draw mod the number of states. Parts with the same
//! successor add up.
//!
//! So every choice leads to the goal or the sink (`laws::choices_lead_to_an_end`). A game has about two choices and six
//! edges a state. It is built choice by choice, and there is no other list of the whole game. Neither memory nor time
//! is part of a contract.
#![tactic(auto)]

mod choices;
mod drawn;
mod draws;
pub mod laws;
mod limits;
mod states;

pub use drawn::{Drawn, draw_game};
pub use draws::Draws;
pub use limits::{LEAST_STATES, MOST_SEED};
