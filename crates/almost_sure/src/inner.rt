//! This module grows the inner set inside the outer one.

ghost use Rattle.std.specs.Prelude.{◌≡◌, length, IfOk};
ghost use Rattle.game_model.specs.Query.{states};
ghost use Rattle.predecessors.specs.Lists.{ArePredecessors};
ghost use Rattle.attractors.specs.Attractor.{IsAttractor};
ghost use Rattle.almost_sure.specs.ExcludedSets.{gone_excluded, AreLeaving};

use attractors::{Excluded, attractor_of, meets};
use game_model::Question;
use game_outside::OutOfMemory;
use predecessors::{ChoiceFlags, Predecessors};
use std::alloc::Global;

/// This excludes the states that are gone, and the choices that lead to one.
#[derive(Drop)]
struct ExcludedGone<'a> {
    gone: &'a [bool],
    leaving: ChoiceFlags,
}

impl Excluded for ExcludedGone<'_> {
    ghost fits = { λ it q. (length it.gone.now ≡ states q) × AreLeaving q.game it.gone.now it.leaving };

    ghost excluded = { λ it _. gone_excluded it.gone.now };

    fn excludes_state(&self, _question: &Question, state: u32) -> bool {
        self.gone[state as usize]
    }

    fn excludes_choice(&self, question: &Question, state: u32, choice: u32) -> bool {
        self.leaving.has(question.game(), state, choice)
    }
}

/// Returns the inner set when these states are gone: it grows backward from the goals, by choices that stay in the
/// outer set.
pub fn inner_set(
    alloc: Global,
    question: &Question,
    predecessors: &Predecessors,
    gone: &[bool],
) -> Result<Vec<bool>, OutOfMemory>
    requires lists { ArePredecessors question.now.game predecessors.now }
    requires many { length gone.now ≡ states question.now }
    ensures { IfOk result (λ set. IsAttractor question.now (gone_excluded gone.now) set.items) }
{
    let leaving = leaving_choices(alloc, question, gone)?;
    attractor_of(
        alloc,
        question,
        predecessors,
        &ExcludedGone { gone, leaving },
    )
}

/// Says for each choice whether some successor is among these states.
fn leaving_choices(
    alloc: Global,
    question: &Question,
    gone: &[bool],
) -> Result<ChoiceFlags, OutOfMemory>
    requires { length gone.now ≡ states question.now }
    ensures { IfOk result (λ leaving. AreLeaving question.now.game gone.now leaving) }
{
    ChoiceFlags::of_game(alloc, question.game(), |state, choice| {
        meets(question, gone, state, choice)
    })
}
