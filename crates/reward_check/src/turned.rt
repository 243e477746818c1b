//! The sides of a question can be exchanged.

ghost use Rattle.std.specs.Prelude.{◌≡◌, IfOk};
ghost use Rattle.expected_rewards.specs.Turned.{turned};

use game_model::Question;
use game_outside::OutOfMemory;
use std::alloc::Global;

/// Returns the question with exchanged sides. The only error is that memory ran out.
pub fn turn<'g>(alloc: Global, question: &Question<'g>) -> Result<Question<'g>, OutOfMemory>
    ensures { IfOk result (λ other. other ≡ turned question.now) }
{
    question.invariant();
    let states = question.game().states();
    let mut sides = Vec::new(alloc);
    let mut goals = Vec::new(alloc);
    let mut deads = Vec::new(alloc);
    for state in 0..states {
        sides.push(question.side(state).other())?;
        goals.push(question.is_goal(state))?;
        deads.push(question.is_dead(state))?;
    }
    Ok(Question::build(question.game(), sides, goals, deads))
}
