//! Choices and ranks prove that values in units are reached: they are a certificate of a lower table.
//!
//! [`check_ranks`] looks at each state of positive value that is neither goal nor dead. There it tests the given choice
//! of the maximiser, or every choice of the minimiser. The weighted average of such a choice has to be at least the
//! value, and the choice has to lead to a greater value or to an equal one of smaller rank. If not, the check names the
//! first fault. The plan of checked choices comes as near to the values as one likes
//! ([`laws::ranked_values_are_reached`]). Such a rank is a ranking function for probabilistic reachability (as
//! certificates of lower bounds: Chatterjee, Quatmann, Schaeffeler, Weininger, Winkler and Zilken, Fixed point
//! certificates for reachability and expected rewards in MDPs, TACAS 2025). The check takes no memory. [`find_ranks`]
//! gives the least such ranks, layer by layer, if there are any. [`find_ranks_over`] does so over lists of predecessors
//! that the caller has.
//!
//! [`rank_table`] is given only values: it finds choices and ranks for them, or shows that there are none at all.
#![tactic(auto)]

mod asked;
mod carrying;
mod check;
mod choice;
mod find;
pub mod laws;
mod layers;
mod table;

pub use check::{RankCause, RankFault, check_ranks};
pub use find::{find_ranks, find_ranks_over};
pub use table::{RankPlan, rank_standing, rank_table, rank_table_over};
