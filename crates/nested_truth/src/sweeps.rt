//! This module runs a given number of steps.

ghost use Rattle.std.specs.Prelude.{◌≡◌, ◌≤◌, All, IfOk, length, false, slice_index_or};
ghost use Rattle.game_model.specs.Limits.{unit};
ghost use Rattle.game_model.specs.Query.{states};
ghost use Rattle.game_model.specs.Rounded.{opening};
ghost use Rattle.bounded_rounds.specs.Limits.{most_steps, most_workers};
ghost use Rattle.bounded_rounds.specs.Steps.{IsSweep};
ghost use Rattle.formula_sets.specs.Posing.{next_question_of};
ghost use Rattle.formula_reader.specs.Formula.{tree_of};
ghost use Rattle.formula_truth.specs.InnerRuns.{AreSwept, units_at};
ghost use Rattle.nested_truth.specs.Seen.{IsBand, band_in, high_or, seen};

use crate::bounds::Bounds;
use crate::known_sets::{KnownSets, are_equal};
use crate::questions::{Questions, next_question};
use crate::setting::Setting;
use bounded_rounds::{Sweep, bounded, bounded_values};
use formula_reader::Formula;
use formula_sets::units_of;
use game_model::Question;
use game_outside::{Gate, OutOfMemory};
use std::alloc::Global;
use std::thread::Threads;
use verdicts::How;

/// Finds the bounds after exactly this many steps: the lower ones of one question, and the upper ones of another. One
/// run finds both if the questions are the same.
pub fn sweep<R: Threads + Sync, G: Gate + Sync>(
    rt: &R,
    alloc: Global,
    setting: Setting<'_>,
    questions: &Questions<'_>,
    steps: u32,
    gate: &G,
) -> Result<Bounds, OutOfMemory>
    requires low { questions.now.low.game ≡ setting.game.now }
    requires high { (high_or questions.now.low questions.now.high).game ≡ setting.game.now }
    requires steps { steps ≤ most_steps }
    ensures swept { IfOk result (λ bounds. AreSwept questions.now.low (high_or questions.now.low questions.now.high)
        (opening questions.now.low) (opening (high_or questions.now.low questions.now.high)) steps
        (band_in bounds) bounds.how) }
    ensures band { IfOk result (λ bounds. IsBand (length setting.entry.game.now) (band_in bounds)) }
{
    let workers = setting.workers;
    let how = How::Steps(steps);
    let Sweep { lower, upper } = bounded_values(rt, alloc, &questions.low, steps, workers, gate)?;
    match &questions.high {
        None => Ok(Bounds { lower, upper, how }),
        Some(high) => {
            let upper = bounded_values(rt, alloc, high, steps, workers, gate)?.upper;
            Ok(Bounds { lower, upper, how })
        }
    }
}

/// Finds the bounds of a formula with `X`, by one step from the sure states of its right side, and one from the
/// possible ones.
pub fn next_sweep<R: Threads + Sync, G: Gate + Sync>(
    rt: &R,
    alloc: Global,
    setting: Setting<'_>,
    formula: &Formula,
    right: &KnownSets,
    gate: &G,
) -> Result<Bounds, OutOfMemory>
    requires right { length right.now.sure.items ≡ length setting.game.now }
    ensures swept { IfOk result (λ bounds. AreSwept (next_question_of setting.entry.game.now setting.entry.owners.now
        (tree_of formula.now)) (next_question_of setting.entry.game.now setting.entry.owners.now (tree_of formula.now))
        (units_at (seen right.now).sure) (units_at (seen right.now).possible) 1 (band_in bounds) bounds.how) }
    ensures band { IfOk result (λ bounds. IsBand (length setting.entry.game.now) (band_in bounds)) }
{
    let workers = setting.workers;
    let question = next_question(alloc, setting, formula)?;
    let how = How::Steps(1);
    let Sweep { lower, upper } = next_step(rt, alloc, &question, &right.sure, workers, gate)?;
    if are_equal(&right.sure, &right.possible) {
        return Ok(Bounds { lower, upper, how });
    }
    let upper = next_step(rt, alloc, &question, &right.possible, workers, gate)?.upper;
    Ok(Bounds { lower, upper, how })
}

// Takes one step from the unit at the marked states and 0 elsewhere.
fn next_step<R: Threads + Sync, G: Gate + Sync>(
    rt: &R,
    alloc: Global,
    question: &Question<'_>,
    marks: &[bool],
    workers: u32,
    gate: &G,
) -> Result<Sweep, OutOfMemory>
    requires marks { length marks.now ≡ states question.now }
    requires workers { (1 ≤ workers) × (workers ≤ most_workers) }
    ensures sweep { IfOk result (λ sweep. IsSweep question.now
        (units_at (λ s. slice_index_or marks.now s false)) 1 sweep.lower.items sweep.upper.items) }
    ensures units { IfOk result (λ sweep. All (λ v. v ≤ unit) sweep.lower.items
        × All (λ v. v ≤ unit) sweep.upper.items) }
{
    question.invariant();
    let table = units_of(alloc, marks)?;
    bounded(rt, alloc, question, &table, 1, workers, gate)
}
