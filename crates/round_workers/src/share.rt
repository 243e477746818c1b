//! This module says which states a worker has: about as many edges as every other.

ghost use Rattle.std.specs.Prelude.{◌≡◌, ◌+◌, ◌*◌, ◌/◌, ◌<◌, ◌≤◌, length};
ghost use Rattle.round_workers.specs.Share.{most_workers, worker_of, BeginsBlock};

use game_model::Game;

/// A round has at most this many workers.
pub const MOST_WORKERS: u32 = 64;

/// Returns the worker of a state out of `workers`: the edges of the states below it times the workers, over all edges,
/// rounded down.
pub fn worker_of(game: &Game, workers: u32, state: u32) -> u32
    requires few { workers ≤ most_workers }
    requires state { state < length game.now }
    ensures { result ≡ worker_of game.now workers state }
{
    game.invariant();
    let below = game.edges_below(state) * u64::from(workers);
    (below / game.edges_below(game.states())) as u32
}

/// Returns the first state of a worker or of a later one, or the number of states if there is none.
pub fn first_state(game: &Game, workers: u32, worker: u32) -> u32
    requires few { workers ≤ most_workers }
    ensures { BeginsBlock game.now workers worker result }
{
    game.invariant();
    let mut low = 0;
    let mut high = game.states();
    while low < high {
        let middle = low + (high - low) / 2;
        if worker_of(game, workers, middle) < worker {
            low = middle + 1;
        } else {
            high = middle;
        }
    }
    low
}
