//! This module says which moves may be taken if the minimiser plays the replies of a solver.

ghost use Rattle.std.specs.Prelude.{◌<◌, IsTrue};
ghost use Rattle.game_model.specs.Query.{states};

use game_model::{Question, Side};
use predecessors::Move;

/// Returns whether a move may be taken before a goal is reached.
pub fn may_be_taken(question: &Question, replies: &[u32], step: Move) -> bool
    ensures { IsTrue result → step.state < states question.now }
{
    if step.state >= question.game().states() || question.is_goal(step.state) {
        return false;
    }
    match question.side(step.state) {
        Side::Max => true,
        Side::Min => replies.get(step.state as usize).copied() == Some(step.choice),
    }
}
