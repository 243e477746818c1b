//! This module marks the states that lead to another one.

ghost use Rattle.std.specs.Prelude.{◌≡◌, ℕ, ◌<◌, ◌⊎◌, length};
ghost use Rattle.predecessors.specs.Lists.{ArePredecessors};
ghost use Rattle.predecessors.specs.Marks.{IsMarked};
ghost use Rattle.predecessors.specs.Moves.{LeadsTo};

use crate::lists::Predecessors;
use game_model::Game;

/// Marks the predecessors of a state, and no other states.
pub fn mark_predecessors(game: &Game, predecessors: &Predecessors, state: u32, marks: &mut [bool])
    requires predecessors { ArePredecessors game.now predecessors.now }
    requires state { state < length game.now }
    requires marks { length marks.old ≡ length game.now }
    ensures marks { length marks.new ≡ length game.now }
    ensures kept { (s : ℕ) → IsMarked marks.old s → IsMarked marks.new s }
    ensures marked { (s c : ℕ) → LeadsTo game.now s c state → IsMarked marks.new s }
    ensures only { (s : ℕ) → IsMarked marks.new s → IsMarked marks.old s ⊎ ((c : ℕ) × LeadsTo game.now s c state) }
{
    let _ = game;
    for step in predecessors.of_state(state) {
        marks[step.state as usize] = true;
    }
}
