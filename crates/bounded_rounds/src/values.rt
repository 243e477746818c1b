//! This module finds bounds of the k-step values: rounded steps from the table that iteration opens with.

ghost use Rattle.std.specs.Prelude.{◌≡◌, ◌≤◌, ◌<◌, ℕ, length, slice_index, All, IfOk};
ghost use Rattle.game_model.specs.Query.{states};
ghost use Rattle.game_model.specs.Limits.{unit};
ghost use Rattle.game_model.specs.Rounded.{opening};
ghost use Rattle.bounded_rounds.specs.Limits.{most_steps, most_workers};
ghost use Rattle.bounded_rounds.specs.Steps.{IsSweep};

use crate::sweep::{Sweep, bounded};
use game_model::{Question, UNIT};
use game_outside::{Gate, OutOfMemory};
use std::alloc::{AllocError, Global};
use std::thread::Threads;

/// Returns what [`bounded`] returns from the table that iteration opens with. Exact steps from this table give the
/// k-step values. The only error is that memory ran out.
pub fn bounded_values<R: Threads + Sync, G: Gate + Sync>(
    rt: &R,
    alloc: Global,
    question: &Question,
    steps: u32,
    workers: u32,
    gate: &G,
) -> Result<Sweep, OutOfMemory>
    requires steps { steps ≤ most_steps }
    requires workers { (1 ≤ workers) × (workers ≤ most_workers) }
    ensures sweep { IfOk result (λ sweep. IsSweep question.now
        (opening question.now) steps sweep.lower.items sweep.upper.items) }
    ensures units { IfOk result (λ sweep. All (λ v. v ≤ unit) sweep.lower.items
        × All (λ v. v ≤ unit) sweep.upper.items) }
{
    question.invariant();
    let table = opening_of(alloc, question)?;
    bounded(rt, alloc, question, &table, steps, workers, gate)
}

/// Returns the table that iteration opens with: the unit at a goal, else 0.
fn opening_of(alloc: Global, question: &Question) -> Result<Vec<u64>, AllocError>
    ensures many { IfOk result (λ table. length table.items ≡ states question.now) }
    ensures units { IfOk result (λ table. All (λ v. v ≤ unit) table.items) }
    ensures each { IfOk result (λ table. (s : ℕ) → s < states question.now
        → slice_index table.items s ≡ opening question.now s) }
{
    (0..question.game().states())
        .map(|state| if question.is_goal(state) { UNIT } else { 0 })
        .collect(alloc)
}
