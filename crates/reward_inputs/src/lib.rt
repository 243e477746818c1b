//! This crate reads the question of expected rewards that the words of a command and the texts of a shelf ask.
//!
//! [`load_reward_model`] reads the transition file, the label file, the owner file, the file of rewards and the
//! formula, one after another, and gives what they are ([`LoadedRewards`]). [`pose_rewards`] poses the question of a
//! formula of rewards ([`RewardProblem`]). Both tell the first refusal, or that a text can't be read ([`RewardEnd`]).
//! The contracts speak by relations of the texts that a shelf holds, if it tells them (`specs/Asks.antt`). What is read
//! by cases is exactly what the texts ask ([`laws`]).
//!
//! The question is to come to the goal: the game, the side that chooses at each state, and the goals. The sides are
//! those of a formula of `P` with the same coalition and the same sense, so `R<=x` has the sides of `P<=p`. No state is
//! dead.
#![tactic(auto)]

mod end;
pub mod laws;
mod load;
mod loaded;
mod model;
mod problem;
mod reach;

pub use end::RewardEnd;
pub use loaded::LoadedRewards;
pub use model::load_reward_model;
pub use problem::{RewardProblem, pose_rewards};
