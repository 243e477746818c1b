//! This module makes a round, forked and joined by halves of the workers.
ghost use Rattle.std.specs.Prelude.{◌≡◌, ℕ, ◌+◌, ◌-◌, ◌<◌, ◌≤◌, length};
ghost use Rattle.std.specs.Thread.{IsSend, IsSync};
ghost use Rattle.game_model.specs.Query.{states};
ghost use Rattle.game_model.specs.Rounded.{down_step};
ghost use Rattle.value_words.specs.Passes.{IsOf, Grew, seen_by, won_by, parts_of};
ghost use Rattle.predecessors.specs.Marks.{IsMarked};
ghost use Rattle.round_workers.specs.Share.{IsSwept, most_workers};
ghost use Rattle.round_workers.specs.inside.WorkerRanges.{IsWorkerRange, AreHalves};

use crate::sweep::{Rounded, Task, meet, sweep};
use crate::worker_range::WorkerRange;
use game_outside::Gate;
use predecessors::Predecessors;
use std::thread::{Threads, join};
use value_words::{Pass, Posing, ValueTable};

/// Makes one round over the marked states: each worker updates those of its states that have a mark, in rising order,
/// and passes the gate before each state, marked or not. Worker w of W has each state s for which E(s) * W / E, rounded
/// down, is w, with E(s) edges below s and E in all.
///
/// When a worker raises a state, it marks for itself, in `more`, the predecessors of that state that come after it
/// among its own states, and updates these too. So if no state without a mark would rise, one worker's round with marks
/// raises what a round over all states raises. A round promises nothing about `more`.
///
/// In a whole round each worker updates all of its states once, and marks none. It is meant for rounds in which all
/// states are marked.
pub fn round<R: Threads + Sync, P: Posing + Send + Sync, G: Gate + Sync>(
    rt: &R,
    table: &ValueTable<'_, P>,
    predecessors: &Predecessors,
    pass: Pass<P>,
    marks: &[bool],
    more: &mut [bool],
    whole: bool,
    workers: u32,
    gate: &G,
) -> Rounded<P>
    requires pass { IsOf table.now pass }
    requires predecessors { length predecessors.now ≡ states P.posed }
    requires marks { length marks.now ≡ states P.posed }
    requires more { length more.old ≡ states P.posed }
    requires workers { (1 ≤ workers) × (workers ≤ most_workers) }
    ensures grew { Grew pass result.pass }
    // At each marked state at least the down step of what was seen before is seen now.
    ensures step { (s : ℕ) → s < states P.posed → IsMarked marks.now s
        → down_step P.posed (seen_by pass) s ≤ seen_by result.pass s }
    ensures raises { won_by result.pass ≡ won_by pass + result.raises }
    // No more exchanges are won than there are states.
    ensures few { result.raises ≤ states P.posed }
    ensures parts { workers ≤ parts_of pass → parts_of result.pass ≡ parts_of pass }
{
    let range = WorkerRange::all(table.question().game(), workers);
    let task = Task {
        table,
        predecessors,
        marks,
        whole,
        gate,
    };
    fork(rt, &task, pass, more, range)
}

/// Makes the part of a worker range. The first of `more` is the mark of its first state.
fn fork<R: Threads + Sync, P: Posing + Send + Sync, G: Gate + Sync>(
    rt: &R,
    task: &Task<'_, P, G>,
    mut pass: Pass<P>,
    more: &mut [bool],
    range: WorkerRange,
) -> Rounded<P>
    requires pass { IsOf task.now.table.now pass }
    requires more { range.low + length more.old ≡ range.high }
    requires range { IsWorkerRange P.posed.game range }
    ensures { IsSwept P.posed task.now.marks.now
        (range.last - range.first) range.low range.high pass.seat result.pass.seat result.raises }
{
    if range.last - range.first == 1 {
        return sweep(task, pass, more, range.first, range.low, range.high);
    }
    let (front, back) = halves(task.table, range);
    let other = task.table.split(&mut pass);
    let (mine, others) = more.split_at_mut((front.high - front.low) as usize);
    let (left, right) = join(
        rt,
        move || -> Rounded<P>
            requires { IsSync R.row × IsSend P.row × IsSync P.row × IsSync G.row × IsOf task.now.table.now pass
                × (front.low + length mine.now ≡ front.high) × IsWorkerRange P.posed.game front }
            ensures { IsSwept P.posed task.entry.now.marks.now
                (front.last - front.first) front.low front.high pass.seat result.pass.seat result.raises }
        { fork(rt, task, pass, mine, front) },
        move || -> Rounded<P>
            requires { IsSync R.row × IsSend P.row × IsSync P.row × IsSync G.row × IsOf task.now.table.now other
                × (back.low + length others.now ≡ back.high) × IsWorkerRange P.posed.game back }
            ensures { IsSwept P.posed task.entry.now.marks.now
                (back.last - back.first) back.low back.high other.seat result.pass.seat result.raises }
        { fork(rt, task, other, others, back) },
    );
    meet(task.table, left, right)
}

/// Returns the halves of a worker range of at least two workers.
fn halves<P: Posing>(table: &ValueTable<'_, P>, range: WorkerRange) -> (WorkerRange, WorkerRange)
    requires range { IsWorkerRange P.posed.game range }
    requires some { 2 ≤ range.last - range.first }
    ensures { AreHalves P.posed.game range result.0 result.1 }
{
    range.halves(table.question().game())
}
