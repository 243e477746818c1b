//! This crate makes one round over the marked states of a question, by several workers that race on the shared words.
//!
//! [`round`] cuts the states into one block for each worker, with about as many edges each ([`worker_of`]). Each worker
//! updates the marked states of its block in rising order (asynchronous value iteration: Bertsekas, Distributed dynamic
//! programming, 1982; a sweep that passes over states that can't rise: Moore and Atkeson, Prioritized sweeping, 1993).
//! The work is forked and joined by halves of the workers; one worker costs no thread. What a round ensures holds for
//! every schedule: at each marked state at least the down step of what was seen before is seen after. No contract says
//! which worker raised what, or that two of them run at the same time.
#![tactic(auto)]

mod fork;
pub mod laws;
mod marks;
mod share;
mod sweep;
mod worker_range;

pub use fork::round;
pub use marks::next_mark;
pub use share::{MOST_WORKERS, first_state, worker_of};
pub use sweep::Rounded;
