//! This module takes the steps of a sweep, one after another.

ghost use Rattle.std.specs.Prelude.{◌≡◌, ◌≤◌, length, slice_index, All, IfOk};
ghost use Rattle.game_model.specs.Query.{states};
ghost use Rattle.game_model.specs.Limits.{unit};
ghost use Rattle.fixed_bellman.specs.Bounds.{lowers, uppers, AreUnits};
ghost use Rattle.bounded_rounds.specs.Limits.{most_steps, most_workers};
ghost use Rattle.bounded_rounds.specs.inside.Parts.{opened, IsBoundsTable, IsStepped};
ghost use Rattle.bounded_rounds.specs.Steps.{IsSweep};

use crate::fork::step_chunks;
use crate::tables::Tables;
use fixed_bellman::Bounds;
use game_model::Question;
use game_outside::{Gate, OutOfMemory};
use std::alloc::{AllocError, Global};
use std::mem;
use std::thread::Threads;

/// This many edges make one more worker worth its thread.
const EDGES_FOR_A_WORKER: u64 = 50_000;

/// A sweep is a lower and an upper table, in units, by state.
#[derive(Drop)]
pub struct Sweep {
    /// This is the lower table.
    pub lower: Vec<u64>,
    /// This is the upper table.
    pub upper: Vec<u64>,
}

/// Returns the tables after exactly `steps` steps from an opening table: down steps for the lower one, up steps for the
/// upper one. They are the same for every number of workers and every schedule. With no steps both are the opening
/// table. The only error is that memory ran out.
///
/// Each step reads one table of bounds and writes another. With W workers, n is the number of states over W, rounded
/// up: worker w has up to n states, from w times n on, and passes the gate before each of them. The first step may use
/// all workers. Later steps use fewer if the game is small.
pub fn bounded<R: Threads + Sync, G: Gate + Sync>(
    rt: &R,
    alloc: Global,
    question: &Question,
    opening: &[u64],
    steps: u32,
    workers: u32,
    gate: &G,
) -> Result<Sweep, OutOfMemory>
    requires opening { length opening.now ≡ states question.now }
    requires units { All (λ v. v ≤ unit) opening.now }
    requires steps { steps ≤ most_steps }
    requires workers { (1 ≤ workers) × (workers ≤ most_workers) }
    ensures sweep { IfOk result (λ sweep. IsSweep question.now
        (slice_index opening.now) steps sweep.lower.items sweep.upper.items) }
    ensures units { IfOk result (λ sweep. All (λ v. v ≤ unit) sweep.lower.items
        × All (λ v. v ≤ unit) sweep.upper.items) }
{
    let first = open(alloc, opening)?;
    let spare = open(alloc, opening)?;
    let table = iterate(rt, question, first, spare, steps, workers, gate);
    Ok(parted(alloc, &table)?)
}

/// Returns the opening table as lower and upper bounds.
fn open(alloc: Global, opening: &[u64]) -> Result<Vec<Bounds>, AllocError>
    ensures { IfOk result (λ table. table.items ≡ opened opening.now) }
{
    opening
        .iter()
        .map(|value| Bounds {
            lower: *value,
            upper: *value,
        })
        .collect(alloc)
}

// Returns the bounds as a lower and an upper table.
fn parted(alloc: Global, table: &[Bounds]) -> Result<Sweep, AllocError>
    ensures lower { IfOk result (λ sweep. sweep.lower.items ≡ lowers table.now) }
    ensures upper { IfOk result (λ sweep. sweep.upper.items ≡ uppers table.now) }
{
    let lower = table.iter().map(|bounds| bounds.lower).collect(alloc)?;
    let upper = table.iter().map(|bounds| bounds.upper).collect(alloc)?;
    Ok(Sweep { lower, upper })
}

/// Takes the steps, from one table to the other and back. A step that changes nothing is the last: all steps after it
/// would change nothing either.
fn iterate<R: Threads + Sync, G: Gate + Sync>(
    rt: &R,
    question: &Question,
    mut table: Vec<Bounds>,
    mut next: Vec<Bounds>,
    steps: u32,
    workers: u32,
    gate: &G,
) -> Vec<Bounds>
    requires table { IsBoundsTable question.now table.items }
    requires same { uppers table.items ≡ lowers table.items }
    requires next { length next.items ≡ states question.now }
    requires workers { 1 ≤ workers }
    ensures sweep { IsSweep question.now (slice_index (lowers table.items)) steps (lowers result.items)
        (uppers result.items) }
    ensures units { All AreUnits result.items }
{
    question.invariant();
    let mut used = workers;
    for _done in 0..steps {
        if !step(rt, question, &table, &mut next, used, gate) {
            return table;
        }
        mem::swap(&mut table, &mut next);
        used = busy_workers(question, workers);
    }
    table
}

/// Fills the next table by `workers` workers. Returns whether one of its entries is not the same as before.
fn step<R: Threads + Sync, G: Gate + Sync>(
    rt: &R,
    question: &Question,
    table: &[Bounds],
    next: &mut [Bounds],
    workers: u32,
    gate: &G,
) -> bool
    requires table { IsBoundsTable question.now table.now }
    requires next { length next.old ≡ states question.now }
    requires workers { 1 ≤ workers }
    ensures { IsStepped question.now table.now 0 (states question.now) next.new result }
{
    question.invariant();
    let tables = Tables { question, table };
    let size = question.game().states().div_ceil(workers);
    step_chunks(rt, tables, gate, size, 0, next)
}

/// Returns how many workers a step after the first has: one, and one more for each `EDGES_FOR_A_WORKER` edges.
fn busy_workers(question: &Question, workers: u32) -> u32
    requires { 1 ≤ workers }
    ensures some { 1 ≤ result }
    ensures few { result ≤ workers }
{
    let game = question.game();
    let worth = game.edges_below(game.states()) / EDGES_FOR_A_WORKER + 1;
    if worth < u64::from(workers) {
        worth as u32
    } else {
        workers
    }
}
