//! The rounds of two races share what they are made with.

ghost use Rattle.std.specs.Prelude.{◌≤◌};
ghost use Rattle.round_workers.specs.Share.{most_workers};

use crate::parallel_sweep::ParallelSweep;
use crate::stopping::Ending;
use game_outside::Gate;
use std::thread::Threads;

/// These things stay the same from one round to the next.
#[derive(Drop)]
pub struct Rounds<'a, R: Threads + Sync, F: Fn(u64, u64) -> bool, G: Gate + Sync> {
    /// The parallel sweep fills the tables of a guess.
    pub parallel: &'a ParallelSweep<'a, R>,
    /// This is the question, with what may end its run.
    pub ending: &'a Ending<'a, F>,
    /// At most this many rounds are made.
    pub most: u32,
    /// A round has at most this many workers.
    pub workers: u32,
    /// A worker passes this gate before each state.
    pub gate: &'a G,
    ghost some: { 1 ≤ workers },
    ghost few: { workers ≤ most_workers },
}
