//! This module makes the question of the other side.

ghost use Rattle.std.specs.Prelude.{◌≡◌, IfOk};
ghost use Rattle.game_model.specs.Dual.{swapped, IsZeroSet};

use game_model::{Marks, Question};
use game_outside::OutOfMemory;
use std::alloc::Global;

/// Makes the question of the other side, over the same game: the sides are exchanged, the states of the zero set are
/// its goals, and the goals are its dead states. Its values and those of staying out of the zero set add up to 1
/// (`game_model::laws::swap_law`), so its lower bounds give upper bounds of the question. The marks must be the
/// question's zero set. The only error is that memory ran out.
pub fn swap<'g>(
    alloc: Global,
    question: &Question<'g>,
    zero: &Marks,
) -> Result<Question<'g>, OutOfMemory>
    requires { IsZeroSet question.now zero.now }
    ensures { IfOk result (λ other. other ≡ swapped question.now zero.now) }
{
    question.invariant();
    let states = question.game().states();
    let mut sides = Vec::new(alloc);
    let mut goals = Vec::new(alloc);
    let mut deads = Vec::new(alloc);
    for state in 0..states {
        sides.push(question.side(state).other())?;
        goals.push(zero.has(state))?;
        deads.push(question.is_goal(state))?;
    }
    Ok(Question::build(question.game(), sides, goals, deads))
}
