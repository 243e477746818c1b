//! This crate finds tables of bounds in floating point, for the checks of `solved_plans` to accept or to refuse.
//!
//! [`find_bounds`] goes over the components of a question in the order of play. The graph says where a state has the
//! value 1 or 0. A component of one state takes an exact step. The values of a larger one are found by sweeps and
//! strategy iteration over its local game, and rounded to entries that hold. For upper values the minimiser's replies
//! are fixed, and each end component that is left to the maximiser is one node (de Alfaro 1997). The replies are then
//! improved over what was found.
//!
//! [`find_costly_bounds`] does the same for a question whose choices have costs: the value is the unit at a goal, less
//! what the choices on the way cost. Nobody stays for ever free of charge there, so no end component is looked for.
//!
//! Nothing is promised of a table but that it has an entry for each state or none, and that each entry is at most the
//! unit. Nothing else needs to be promised. Every function here is safe and ends, and there is no random number and no
//! clock, so the same question gives the same tables on every machine.
#![tactic(auto)]

mod bounds;
mod costs;
mod edges;
mod end_components;
mod input;
mod lower;
mod replies;
mod state_order;
mod upper;
mod weights;

pub use bounds::find_bounds;
pub use costs::{CostlyTables, Costs, find_costly_bounds};
