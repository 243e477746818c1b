//! This module runs one race: rounds of workers on the shared words of one question.

ghost use Rattle.std.specs.Prelude.{◌≡◌, ℕ, ◌+◌, ◌<◌, ◌≤◌, false, IfOk};
ghost use Rattle.game_model.specs.Query.{states};
ghost use Rattle.game_model.specs.Rounded.{down_step, IsSettled};
ghost use Rattle.round_workers.specs.Share.{most_workers};
ghost use Rattle.predecessors.specs.Lists.{ArePredecessors};
ghost use Rattle.value_words.specs.Passes.{IsOf, Grew, seen_by, won_by, parts_of};
ghost use Rattle.marked_rounds.specs.DirtySet.{read_of, IsDirtySet};
ghost use Rattle.marked_rounds.specs.Rounds.{IsRacing, IsClosed};

use crate::dirty::{DirtySet, mark_again, read_again};
use game_model::Question;
use game_outside::{Gate, OutOfMemory};
use predecessors::Predecessors;
use round_workers::{Rounded, round};
use std::alloc::Global;
use std::thread::Threads;
use value_words::{Pass, Posing, ValueTable, Words};

/// This many edges make one more worker worth its thread.
const EDGES_FOR_A_WORKER: u64 = 50_000;

/// A runner has the shared words of a question, the pass that has seen them, and the states to update. Each other state
/// is quiet.
#[derive(Drop)]
pub struct Runner<'q, P: Posing> {
    table: ValueTable<'q, P>,
    /// This is what was seen of the words.
    pub pass: Pass<P>,
    /// These are the states to update.
    pub dirty: DirtySet,
    // This many values changed in the last round. It is none if there was no round.
    changed: Option<u32>,
    ghost of: { IsOf table pass },
    ghost ready: { IsDirtySet P.posed dirty (seen_by pass) },
}

/// Opens the words. All states are to be updated.
pub fn open<'q, P: Posing>(
    alloc: Global,
    question: &'q Question<'q>,
) -> Result<Runner<'q, P>, OutOfMemory>
    requires { question.now ≡ P.posed }
    ensures { IfOk result (λ runner. IsRacing P.posed 0 runner.pass runner.dirty) }
{
    question.invariant();
    let dirty = DirtySet::open(alloc, question)?;
    let (table, pass) = ValueTable::<P>::start(alloc, question)?;
    Ok(Runner {
        table,
        pass,
        dirty,
        changed: None,
    })
}

/// Makes one round of at most `workers` workers, and says whether a value changed. If none did, what was read is
/// settled.
pub fn one_round<'q, R: Threads + Sync, P: Posing + Send + Sync, G: Gate + Sync>(
    rt: &R,
    predecessors: &Predecessors,
    runner: Runner<'q, P>,
    workers: u32,
    gate: &G,
) -> (Runner<'q, P>, bool)
    requires predecessors { ArePredecessors P.posed.game predecessors.now }
    requires workers { (1 ≤ workers) × (workers ≤ most_workers) }
    ensures racing { (r : ℕ) → IsRacing P.posed r runner.entry.pass runner.entry.dirty
        → IsRacing P.posed (r + 1) result.0.pass result.0.dirty }
    ensures settled { result.1 ≡ false → IsSettled P.posed (read_of result.0.dirty) }
{
    let Runner {
        table,
        pass,
        mut dirty,
        changed,
    } = runner;
    let used = match changed {
        Some(changed) => busy_workers(table.question(), workers, changed),
        None => workers,
    };
    let (pass, changed) = sweep(rt, &table, predecessors, pass, &mut dirty, used, gate);
    let runner = Runner {
        table,
        pass,
        dirty,
        changed: Some(changed),
    };
    (runner, changed > 0)
}

/// Returns the closed words: those of a race of as many rounds. They are settled if what was read is.
pub fn close<P: Posing>(alloc: Global, runner: Runner<'_, P>) -> Result<Words, OutOfMemory>
    ensures { (r : ℕ) → IsRacing P.posed r runner.entry.pass runner.entry.dirty
        → IfOk result (λ words. IsClosed P.posed words r (read_of runner.entry.dirty)) }
{
    let Runner {
        table,
        pass,
        dirty: _,
        changed: _,
    } = runner;
    let words = table.close(alloc, pass)?;
    Ok(words)
}

// Makes one round, and says how many values changed in it.
fn sweep<R: Threads + Sync, P: Posing + Send + Sync, G: Gate + Sync>(
    rt: &R,
    table: &ValueTable<'_, P>,
    predecessors: &Predecessors,
    pass: Pass<P>,
    dirty: &mut DirtySet,
    workers: u32,
    gate: &G,
) -> (Pass<P>, u32)
    requires pass { IsOf table.now pass }
    requires predecessors { ArePredecessors P.posed.game predecessors.now }
    requires dirty { IsDirtySet P.posed dirty.old (seen_by pass) }
    requires workers { (1 ≤ workers) × (workers ≤ most_workers) }
    ensures grew { Grew pass result.0 }
    ensures won { won_by result.0 ≤ won_by pass + states P.posed }
    ensures parts { workers ≤ parts_of pass → parts_of result.0 ≡ parts_of pass }
    ensures dirty { IsDirtySet P.posed dirty.new (seen_by result.0) }
    // At each state, marked or not, what is read now is at least the down step of what was read before.
    ensures step { (s : ℕ) → s < states P.posed → down_step P.posed (read_of dirty.old) s ≤ read_of dirty.new s }
    ensures settled { result.1 ≡ 0 → IsSettled P.posed (read_of dirty.new) }
{
    let Rounded {
        mut pass,
        raises: _,
    } = round(
        rt,
        table,
        predecessors,
        pass,
        &dirty.marks,
        &mut dirty.more,
        dirty.whole,
        workers,
        gate,
    );
    let changed = read_again(table, &mut pass, dirty);
    if changed == 0 {
        return (pass, 0);
    }
    mark_again(table.question().game(), predecessors, dirty, changed);
    (pass, changed)
}

/// Returns how many workers a round after the first has: one, and one more for each `EDGES_FOR_A_WORKER` edges of the
/// states that are updated. About as many states are updated as edges lead to a changed state, and they have about as
/// many edges as others.
pub fn busy_workers(question: &Question<'_>, workers: u32, changed: u32) -> u32
    requires { 1 ≤ workers }
    ensures some { 1 ≤ result }
    ensures few { result ≤ workers }
{
    question.invariant();
    let game = question.game();
    let states = u64::from(game.states());
    let edges = game.edges_below(game.states());
    let updated = (edges.saturating_mul(u64::from(changed)) / states).min(states);
    let worth = edges.saturating_mul(updated) / states / EDGES_FOR_A_WORKER + 1;
    if worth < u64::from(workers) {
        worth as u32
    } else {
        workers
    }
}
