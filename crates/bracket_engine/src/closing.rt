//! This module makes the bracket after the races are over.

ghost use Rattle.std.specs.Prelude.{◌≡◌, ◌↔◌, ◌≤◌, true, length, slice_index, All, IfOk};
ghost use Rattle.game_model.specs.Query.{states};
ghost use Rattle.game_model.specs.Limits.{unit};
ghost use Rattle.game_model.specs.Dual.{swapped, IsZeroSet};
ghost use Rattle.game_model.specs.Rounded.{IsSettled};
ghost use Rattle.verdicts.specs.Stop.{bound_of};
ghost use Rattle.bracket_engine.specs.BracketOfRun.{IsBracketOfRun};
ghost use Rattle.bracket_engine.specs.inside.Race.{AreOver};

use crate::base::Base;
use crate::bounds::Bracket;
use crate::parallel_sweep::ParallelSweep;
use crate::race::Raced;
use crate::rounds::Rounds;
use crate::sides::both_sides;
use crate::tables::values_of_words;
use fixed_bellman::settled;
use game_model::Question;
use game_outside::{Gate, OutOfMemory};
use plan_text::Plan;
use std::alloc::Global;
use std::thread::Threads;

/// Makes the bracket of two races that are over: the tables, and the strategies for them. The swapped words and the
/// swapped question are dropped after they are read.
pub fn bracket_of<R: Threads + Sync, F: Fn(u64, u64) -> bool, G: Gate + Sync>(
    alloc: Global,
    made: &Rounds<'_, R, F, G>,
    swapped_question: Question<'_>,
    raced: Raced,
) -> Result<Bracket, OutOfMemory>
    requires zero { IsZeroSet made.now.ending.now.question.now made.now.ending.now.zero.now }
    requires swapped_question { swapped_question ≡ swapped made.now.ending.now.question.now
        made.now.ending.now.zero.now }
    requires over { AreOver made.now.ending.now.question.now swapped_question made.now.ending.now.zero.now
        (bound_of made.now.ending.now.rule.now) made.now.ending.now.initial.now made.now.most raced }
    ensures { IfOk result (IsBracketOfRun made.now.ending.now.question.now made.now.ending.now.zero.now
        (bound_of made.now.ending.now.rule.now) made.now.ending.now.initial.now made.now.most) }
{
    swapped_question.invariant();
    let ending = made.ending;
    let Raced {
        words,
        swapped_words,
        rounds,
        quiet,
        kept,
    } = raced;
    let swapped_values = values_of_words(alloc, swapped_words.as_slice())?;
    drop(swapped_words);
    let base = values_of_words(alloc, words.as_slice())?;
    let stable = is_stable(
        ending.question,
        &swapped_question,
        &base,
        &swapped_values,
        quiet,
    );
    drop(swapped_question);
    let over = Base {
        question: ending.question,
        zero: ending.zero,
        predecessors: ending.predecessors,
        values: &base,
    };
    let (lower, upper) = both_sides(made.parallel, alloc, &over, words, swapped_values, kept)?;
    let plan = Plan {
        lower: lower.values,
        choices: lower.plan.choices,
        ranks: lower.plan.ranks,
        upper: upper.table,
        replies: upper.replies,
    };
    Ok(Bracket {
        plan,
        base,
        rounds,
        stable,
    })
}

// Returns whether the run is settled. If the last round changed nothing on either question, no table is tested.
fn is_stable(
    question: &Question,
    swapped_question: &Question,
    base: &[u64],
    swapped_values: &[u64],
    quiet: bool,
) -> bool
    requires base { length base.now ≡ states question.now }
    requires units { All (λ v. v ≤ unit) base.now }
    requires swapped_values { length swapped_values.now ≡ states swapped_question.now }
    requires swapped_units { All (λ v. v ≤ unit) swapped_values.now }
    requires quiet { quiet ≡ true → IsSettled question.now (slice_index base.now)
        × IsSettled swapped_question.now (slice_index swapped_values.now) }
    ensures { (result ≡ true) ↔ (IsSettled question.now (slice_index base.now)
        × IsSettled swapped_question.now (slice_index swapped_values.now)) }
{
    quiet || (settled(question, base) && settled(swapped_question, swapped_values))
}
