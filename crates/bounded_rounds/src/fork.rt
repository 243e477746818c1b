//! This module takes one step, forked and joined by halves of the workers.

ghost use Rattle.std.specs.Prelude.{◌*◌, ◌≤◌, length};
ghost use Rattle.std.specs.Thread.{IsSync};
ghost use Rattle.bounded_rounds.specs.inside.OfTables.{IsPartFrom, IsStepOf};

use crate::part::step_part;
use crate::tables::Tables;
use fixed_bellman::Bounds;
use game_outside::Gate;
use std::thread::{Threads, join_mut};

/// Takes the steps at the states of the workers from `worker` on: worker w has `size` states, from w times `size` on,
/// and the last worker has the rest. If it answers no, each of the steps is the entry of the table.
#[cycle(halves)]
pub fn step_chunks<R: Threads + Sync, G: Gate + Sync>(
    rt: &R,
    tables: Tables<'_>,
    gate: &G,
    size: u32,
    worker: u32,
    next: &mut [Bounds],
) -> bool
    requires size { 1 ≤ size }
    requires part { IsPartFrom tables (worker * size) next.old }
    ensures { IsStepOf tables.entry (worker * size) (length next.old) next.new result }
{
    tables.question.invariant();
    let count = next.len() as u32;
    if count <= size {
        return step_part(tables, gate, worker, worker * size, next);
    }
    let chunks = count.div_ceil(size) / 2;
    let cut = (chunks * size) as usize;
    let (front, back) = next.split_at_mut(cut);
    let (first, second) = step_halves(rt, tables, gate, size, worker, worker + chunks, front, back);
    first | second
}

/// Does the same for two rows of workers side by side: those from `worker` on, and those from `other` on.
#[cycle(halves)]
fn step_halves<R: Threads + Sync, G: Gate + Sync>(
    rt: &R,
    tables: Tables<'_>,
    gate: &G,
    size: u32,
    worker: u32,
    other: u32,
    front: &mut [Bounds],
    back: &mut [Bounds],
) -> (bool, bool)
    requires size { 1 ≤ size }
    requires front { IsPartFrom tables (worker * size) front.old }
    requires back { IsPartFrom tables (other * size) back.old }
    ensures front { IsStepOf tables.entry (worker * size) (length front.old) front.new result.0 }
    ensures back { IsStepOf tables.entry (other * size) (length back.old) back.new result.1 }
{
    let mut first = || -> bool
        requires { IsSync R.row × IsSync G.row × (1 ≤ size) × IsPartFrom tables (worker * size) front.now }
        ensures { IsStepOf tables.entry (worker * size) (length front.entry.now) front.exit.now result }
    { step_chunks(rt, tables, gate, size, worker, front) };
    let mut second = || -> bool
        requires { IsSync R.row × IsSync G.row × (1 ≤ size) × IsPartFrom tables (other * size) back.now }
        ensures { IsStepOf tables.entry (other * size) (length back.entry.now) back.exit.now result }
    { step_chunks(rt, tables, gate, size, other, back) };
    join_mut(rt, &mut first, &mut second)
}
