//! This module has what the runs of a formula have in common.

ghost use Rattle.std.specs.Prelude.{◌≡◌, ◌≤◌, length};
ghost use Rattle.std.specs.List.{range_with_len};
ghost use Rattle.game_model.specs.Game.{IsGame};
ghost use Rattle.predecessors.specs.Lists.{ArePredecessors};
ghost use Rattle.bracket_engine.specs.Limits.{most_rounds};
ghost use Rattle.bounded_rounds.specs.Limits.{most_workers};
ghost use Rattle.formula_truth.specs.InnerRuns.{rounds_of};

use formula_truth::Way;
use game_model::Game;
use label_reader::{Labels, Owners};
use predecessors::Predecessors;

/// A setting is a game with labels and owners, and says how the game is run.
#[derive(Clone, Copy)]
pub struct Setting<'a> {
    pub game: &'a Game,
    pub labels: &'a Labels,
    pub owners: &'a Owners,
    /// This has for each state the choices that lead to it.
    pub predecessors: &'a Predecessors,
    /// These are all states, in rising order.
    pub everywhere: &'a [u32],
    /// Questions without a bound on the steps are answered in this way.
    pub way: Way,
    /// A round or a step has at most this many workers.
    pub workers: u32,
    ghost is_game: { IsGame game.now },
    ghost lists: { ArePredecessors game.now predecessors.now },
    ghost labelled: { labels.now.states ≡ length game.now },
    ghost owned: { length owners.now.owners ≡ length game.now },
    ghost starts: { everywhere.now ≡ range_with_len 0 (length game.now) },
    ghost few: { rounds_of way ≤ most_rounds },
    ghost some_workers: { 1 ≤ workers },
    ghost few_workers: { workers ≤ most_workers },
}
