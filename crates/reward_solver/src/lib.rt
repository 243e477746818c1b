//! This crate finds tables of expected rewards in floating point, for a check to accept or to refuse.
//!
//! [`find_reward_bounds`] looks at the game from the minimiser's side, where rewards are costs on the way to a goal. A
//! value of so many units is 10^15 less these units there: the unit at a goal, less what the choices on the way cost.
//! So `plan_solver::find_costly_bounds` finds both tables. The minimiser begins with choices that lead to a goal, and a
//! choice is exchanged only for one that gains. So the minimiser goes on to reach one, and no loop that pays nothing
//! keeps it.
//!
//! Values are in units of 10^-places. The places are the most for which the greatest value is at most 10^15 units; they
//! are found by solving again with more places.
//!
//! Nothing is promised of the tables but that they have an entry for each state of at most 10^15 units. The rewards are
//! exactly those of the file in these units. Every function here is safe and ends.
#![tactic(auto)]

mod costs;
mod places;
mod search;

pub use search::{RewardCandidates, find_reward_bounds};
