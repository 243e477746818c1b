//! This module has rows of workers and their states.

ghost use Rattle.std.specs.Prelude.{◌<◌, ◌≤◌};
ghost use Rattle.round_workers.specs.Share.{most_workers};

use crate::share::first_state;
use game_model::Game;

/// A worker range is a row of the `workers` of a round: from `first` up to and not including `last`. Their states go
/// from `low` up to and not including `high`.
#[derive(Clone, Copy)]
pub struct WorkerRange {
    pub workers: u32,
    pub first: u32,
    pub last: u32,
    pub low: u32,
    pub high: u32,
    ghost some: { first < last },
    ghost inside: { last ≤ workers },
    ghost few: { workers ≤ most_workers },
}

impl WorkerRange {
    ghost use Rattle.std.specs.Prelude.{◌≡◌, ◌-◌, length};
    ghost use Rattle.round_workers.specs.inside.WorkerRanges.{IsWorkerRange, AreHalves};

    /// Makes the worker range of all workers of a round.
    pub fn all(game: &Game, workers: u32) -> WorkerRange
        requires { (1 ≤ workers) × (workers ≤ most_workers) }
        ensures range { IsWorkerRange game.now result }
        ensures count { result.last - result.first ≡ workers }
        ensures low { result.low ≡ 0 }
        ensures high { result.high ≡ length game.now }
    {
        game.invariant();
        WorkerRange {
            workers,
            first: 0,
            last: workers,
            low: 0,
            high: game.states(),
        }
    }

    /// Returns the first half of the workers, and the others.
    pub fn halves(self, game: &Game) -> (WorkerRange, WorkerRange)
        requires range { IsWorkerRange game.now self }
        requires some { 2 ≤ self.last - self.first }
        ensures { AreHalves game.now self result.0 result.1 }
    {
        let middle = self.first + (self.last - self.first) / 2;
        let cut = first_state(game, self.workers, middle);
        let WorkerRange {
            workers,
            first,
            last,
            low,
            high,
        } = self;
        let front = WorkerRange {
            workers,
            first,
            last: middle,
            low,
            high: cut,
        };
        let back = WorkerRange {
            workers,
            first: middle,
            last,
            low: cut,
            high,
        };
        (front, back)
    }
}
