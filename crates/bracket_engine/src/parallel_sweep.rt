//! Workers fill tables together: each fills the entries of a run of successive states. Nothing is said about which
//! worker runs when, nor that two of them run at once.

ghost use Rattle.std.specs.Prelude.{◌≤◌};
ghost use Rattle.std.specs.Thread.{IsSync};

use game_model::Question;
use std::thread::{Threads, for_each_chunk_mut};
use upper_guess::{UpTables, fill_part};

/// These workers fill the up step of a table together. If there are W of them, a part has the number of states over W,
/// rounded up. Worker w fills part w, counted from 0. The last workers may have none.
#[derive(Drop)]
pub struct ParallelSweep<'a, R: Threads + Sync> {
    /// This starts their threads.
    pub rt: &'a R,
    /// There are this many workers.
    pub workers: u32,
    ghost some: { 1 ≤ workers },
}

impl<R: Threads + Sync> UpTables for ParallelSweep<'_, R> {
    // The workers share what starts threads.
    ghost can_fill = { IsSync R.row };

    fn fill(&self, question: &Question, table: &[u64], next: &mut [u64]) {
        question.invariant();
        let size = question.game().states().div_ceil(self.workers);
        for_each_chunk_mut(
            self.rt,
            next,
            size as usize,
            &|first, part| fill_part(question, table, first as u32, part),
        );
    }
}
