//! This crate reads files of rewards: the rewards that a game pays for its states and for its choices.
//!
//! The first line is `rewards STATES LINES`. Each line behind it is `STATE REWARD` or `STATE CHOICE REWARD`, in any
//! order. What no line gives is 0. A reward is spelled as a probability in a transition file is, and is at most 10^15.
//!
//! ```text
//! let rewards = read_rewards(alloc, &bytes, &game)?;
//! let toss = rewards.of_choice(&game, state, choice);
//! ```
//!
//! [`read_rewards`] gives the rewards, or the first fault of the text with its line. [`read_rewards_from`] reads a file
//! on a shelf, a piece at a time, and gives the same answer in whatever pieces it comes. `specs/Lines.antt` says what a
//! line says, `specs/Texts.antt` which fault a text has, and `specs/Rewards.antt` which rewards its lines give. A
//! reward is exact: [`Amount`] is a fraction in lowest terms. [`read_amount`] reads one that stands alone.
#![tactic(auto)]

mod amount;
mod fault;
mod file;
mod header;
mod kept;
mod large;
pub mod laws;
mod limits;
mod line;
mod number;
mod reader;
mod table;

pub use amount::Amount;
pub use fault::{RewardsCause, RewardsEnd, RewardsFault};
pub use file::read_rewards_from;
pub use limits::{MOST_LINES, MOST_REWARD};
pub use number::read_amount;
pub use reader::read_rewards;
pub use table::RewardTable;
