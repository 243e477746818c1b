//! A solver computes with games over values in floating point. Other crates test its answers.
//!
//! A [`FloatGame`] is the local game of a component. It has nodes, which a side owns, and choices, which lead to nodes
//! with shares of probability. If a choice leaves, it gives what the rest of the game gives. The game is kept in flat
//! lists, and is made from a [`Draft`]. [`FloatGame::sweep`] updates all values in place by the best choices (Gauss and
//! Seidel), and exchanges choices of a policy. [`FloatGame::sweep_policy`] follows a policy. [`FloatGame::improve`]
//! only exchanges choices. [`FloatGame::sweep_rounded`] takes rounded steps over whole units, for a lower or an upper
//! [`Bound`].
//!
//! A [`Chain`] is what is left of a game under a policy, with one choice for each node. It has passes, residuals, and
//! the [`Band`] that its edges stay in.
//!
//! Values are in units, of which 10^15 are probability 1, so an entry is from 0 to 10^15. [`FloatGame::sweep`] and
//! [`FloatGame::sweep_policy`] leave them there. [`FloatGame::sweep_rounded`] leaves them unchanged if it counts no
//! change. How near values come to those of the game is not promised. Lists need one entry for each node, and any
//! floats may be given. A policy has a choice for each node, by its number in the game. If a choice is out of range,
//! this costs only time and nearness.
#![tactic(auto)]

mod chain;
mod draft;
mod game;
mod rounded;
mod sweeps;

pub use chain::{Band, Chain};
pub use draft::Draft;
pub use game::{FloatGame, NO_MARK};
pub use rounded::{Bound, Rounded, whole_units};
pub use sweeps::{Swept, bounded};

/// Probability 1 is this many units.
pub const UNIT: f64 = 1_000_000_000_000_000.0;
