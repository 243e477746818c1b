//! This crate makes a proved certificate of expected rewards from tables of any origin.
//!
//! A solver that nobody trusts finds lower and upper values, with choices and replies, by any method
//! (`reward_solver::RewardCandidates`). [`solve_rewards`] makes a certificate of them that the check of an audit
//! accepts, whatever they are, if the finite states are known, with choices and ranks that prove that no other state is
//! finite. The graph decides where a lower value is infinite: exactly at the states that are not finite. Elsewhere the
//! candidates count, as long as the check accepts them. Lower values that are refused give way to 0 at all finite
//! states, and upper values that are refused to none at all but the goals. The contract says which lower values count,
//! but not that right upper values are kept.
//!
//! Upper values are only for states from which no choice that may be taken leaves them, and at which the candidate is
//! below 10^15 units. The ranks of these states are the least by which each choice that may be taken leads down. Both
//! are found backward, in time linear in the edges. No contract states this: the check decides.
#![tactic(auto)]

mod away;
mod bounded;
mod ends;
mod lists;
mod merge;
mod moves;
mod solve;
mod solved;
mod sources;

pub use away::AwayPlan;
pub use solve::solve_rewards;
pub use solved::SolvedRewards;
