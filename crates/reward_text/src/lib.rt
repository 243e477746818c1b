//! Certificates of expected rewards are written as text and read from text.
//!
//! The first line is `rewards 1 D N` for D places and N states. A state's line has its number, the lower value, the
//! maximiser's choice, the rank, the upper value and the minimiser's reply. [`write_reward_plan`] spells a certificate
//! line by line. [`read_reward_plan`] reads one of any origin: it gives what the text says, or the first line at fault
//! and its cause. A written certificate is read back ([`laws`]).
#![tactic(auto)]

mod heading;
pub mod laws;
mod line;
mod plan;
mod read;
mod value;
mod write;

pub use plan::RewardPlan;
pub use read::read_reward_plan;
pub use write::{append_reward_plan, write_reward_plan};
