//! This module finds the states that are left when some states have gone.

ghost use Rattle.std.specs.Prelude.{◌≡◌, length, IfOk, OnOk};
ghost use Rattle.game_model.specs.Query.{states};
ghost use Rattle.predecessors.specs.Lists.{ArePredecessors};
ghost use Rattle.attractors.specs.Attractor.{IsAttractor};
ghost use Rattle.almost_sure.specs.ExcludedSets.{gone_excluded, AreLeaving};
ghost use Rattle.expected_rewards.specs.Turned.{turned};
ghost use Rattle.away_ranks.specs.inside.Left.{AreKept, AreUnserved};

use attractors::{Excluded, attractor_of, first_unserved, meets};
use game_model::{Question, Side};
use game_outside::OutOfMemory;
use predecessors::{ChoiceFlags, Predecessors};
use std::alloc::Global;

/// This excludes the states that have gone, and the choices that have a successor among them.
#[derive(Drop)]
struct ExcludedGone<'a> {
    gone: &'a [bool],
    leaving: ChoiceFlags,
}

impl Excluded for ExcludedGone<'_> {
    ghost fits = { λ it q. (length it.gone.now ≡ states q) × AreLeaving q.game it.gone.now it.leaving };

    ghost excluded = { λ it _. gone_excluded it.gone.now };

    fn excludes_state(&self, _question: &Question, state: u32) -> bool {
        self.gone[state as usize]
    }

    fn excludes_choice(&self, question: &Question, state: u32, choice: u32) -> bool {
        self.leaving.has(question.game(), state, choice)
    }
}

/// Returns the states that are left: the goals attract them in the question with exchanged sides, by choices whose
/// successors have not gone. A state of the maximiser that neither has gone nor is left gets the first of its choices
/// that keep it out.
pub fn left_states(
    alloc: Global,
    question: &Question,
    other: &Question,
    predecessors: &Predecessors,
    gone: &[bool],
    choices: &mut [Option<u32>],
) -> Result<Vec<bool>, OutOfMemory>
    requires lists { ArePredecessors question.now.game predecessors.now }
    requires other { other.now ≡ turned question.now }
    requires many { length gone.now ≡ states question.now }
    requires choices { length choices.old ≡ states question.now }
    ensures left { IfOk result (λ left. IsAttractor (turned question.now) (gone_excluded gone.now) left.items) }
    ensures kept { OnOk result (AreKept gone.now choices.old choices.new) }
    ensures chosen { IfOk result (λ left. AreUnserved question.now gone.now left.items choices.new) }
{
    let leaving = leaving_choices(alloc, other, gone)?;
    let excluded = ExcludedGone { gone, leaving };
    let left = attractor_of(alloc, other, predecessors, &excluded)?;
    choose(question, other, &excluded, &left, choices);
    Ok(left)
}

/// Says for each choice whether some successor is among these states.
fn leaving_choices(
    alloc: Global,
    question: &Question,
    gone: &[bool],
) -> Result<ChoiceFlags, OutOfMemory>
    requires { length gone.now ≡ states question.now }
    ensures { IfOk result (λ leaving. AreLeaving question.now.game gone.now leaving) }
{
    ChoiceFlags::of_game(alloc, question.game(), |state, choice| {
        meets(question, gone, state, choice)
    })
}

/// Chooses for each state of the maximiser that neither has gone nor is left: the first choice that does not serve.
fn choose(
    question: &Question,
    other: &Question,
    excluded: &ExcludedGone<'_>,
    left: &[bool],
    choices: &mut [Option<u32>],
)
    requires other { other.now ≡ turned question.now }
    requires gone { length excluded.now.gone.now ≡ states question.now }
    requires leaving { AreLeaving question.now.game excluded.now.gone.now excluded.now.leaving }
    requires left { IsAttractor (turned question.now) (gone_excluded excluded.now.gone.now) left.now }
    requires choices { length choices.old ≡ states question.now }
    ensures kept { AreKept excluded.now.gone.now choices.old choices.new }
    ensures chosen { AreUnserved question.now excluded.now.gone.now left.now choices.new }
{
    question.invariant();
    for state in 0..question.game().states() {
        let place = state as usize;
        if left[place] || excluded.gone[place] || question.side(state) == Side::Min {
            continue;
        }
        choices[place] = Some(first_unserved(other, excluded, left, state, 0));
    }
}
