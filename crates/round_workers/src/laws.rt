//! This module has the laws of a round. Each function does nothing: its contract is the law.

ghost use Rattle.std.specs.Prelude.{◌≡◌, ℕ, ◌<◌, ◌≤◌, length, List};
ghost use Rattle.game_model.specs.Game.{Distribution, IsGame};
ghost use Rattle.round_workers.specs.Share.{most_workers, worker_of};

use crate::share::MOST_WORKERS;

/// The constant is the number of the definitions.
pub fn limits()
    ensures { MOST_WORKERS ≡ most_workers }
{}

/// Each state has a worker, and the workers' states follow one another.
pub fn workers_share_the_states()
    ensures one { (game : List (List Distribution)) (workers s : ℕ) → IsGame game → 0 < workers → s < length game
        → worker_of game workers s < workers }
    ensures rising { (game : List (List Distribution)) (workers s t : ℕ) → IsGame game → s ≤ t → t < length game
        → worker_of game workers s ≤ worker_of game workers t }
{}
