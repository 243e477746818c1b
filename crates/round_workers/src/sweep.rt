//! This module makes one worker's part of a round.

ghost use Rattle.std.specs.Prelude.{◌≡◌, ℕ, ◌+◌, ◌<◌, ◌≤◌, ◌^◌, length, MatchBool};
ghost use Rattle.game_model.specs.Query.{states};
ghost use Rattle.game_model.specs.Rounded.{down_step};
ghost use Rattle.value_words.specs.Passes.{IsOf, Grew, Looked, seen_by, won_by, parts_of};
ghost use Rattle.predecessors.specs.Marks.{IsMarked};
ghost use Rattle.round_workers.specs.Share.{IsSwept};

use crate::marks::{STRETCH, has_mark, mark_behind};
use game_outside::Gate;
use predecessors::Predecessors;
use value_words::{Pass, Posing, ValueTable};

/// The workers of a round have this in common.
#[derive(Drop)]
pub struct Task<'r, P: Posing, G: Gate> {
    /// These are the words.
    pub table: &'r ValueTable<'r, P>,
    /// These are the predecessors of each state, which a worker marks when it raises the state.
    pub predecessors: &'r Predecessors,
    /// The states with a mark are updated.
    pub marks: &'r [bool],
    /// All states are updated if this is true.
    pub whole: bool,
    /// Each worker passes this gate before each state.
    pub gate: &'r G,
    ghost listed: { length predecessors.now ≡ states P.posed },
    ghost marked: { length marks.now ≡ states P.posed },
}

/// A round leaves the pass, and how many exchanges it won in the round.
#[derive(Drop)]
pub struct Rounded<P: Posing> {
    /// The pass has seen what all workers have seen.
    pub pass: Pass<P>,
    /// The workers won this many exchanges.
    pub raises: u64,
}

/// Updates the marked states from `from` up to and not including `to`, in rising order, and those that it marks on the
/// way: the first of `more` is the mark of `from`. In a whole round all states are updated, and none is marked on the
/// way. The gate is passed before each state, marked or not.
pub fn sweep<P: Posing, G: Gate>(
    task: &Task<'_, P, G>,
    mut pass: Pass<P>,
    more: &mut [bool],
    worker: u32,
    from: u32,
    to: u32,
) -> Rounded<P>
    requires pass { IsOf task.now.table.now pass }
    requires more { from + length more.old ≡ to }
    requires inside { to ≤ states P.posed }
    ensures { IsSwept P.posed task.now.marks.now 1 from to pass.seat result.pass.seat result.raises }
{
    let mut raises = 0;
    let mut state = from;
    while state < to {
        let end = to.min(state + STRETCH);
        if task.whole
            || has_mark(task.marks, state, end)
            || has_mark(more, state - from, end - from)
        {
            look_ahead(task, &mut pass, state, end);
            raises += walk(task, &mut pass, more, worker, from, state, end);
        } else {
            pass_over(worker, state, end, task.gate);
        }
        state = end;
    }
    Rounded { pass, raises }
}

/// In a whole round, loads the words that the steps of a stretch read, so that the memory fetches them at once.
fn look_ahead<P: Posing, G: Gate>(task: &Task<'_, P, G>, pass: &mut Pass<P>, from: u32, to: u32)
    requires pass { IsOf task.now.table.now pass.old }
    requires order { from ≤ to }
    requires inside { to ≤ states P.posed }
    ensures { Looked pass.old pass.new }
{
    if task.whole {
        task.table.look_ahead(pass, from, to);
    }
}

/// Passes the gate before each state of a stretch.
fn pass_over<G: Gate>(worker: u32, from: u32, to: u32, gate: &G) {
    for state in from..to {
        gate.arrive(worker, state);
    }
}

/// Visits each state of a stretch. Returns how many exchanges were won.
fn walk<P: Posing, G: Gate>(
    task: &Task<'_, P, G>,
    pass: &mut Pass<P>,
    more: &mut [bool],
    worker: u32,
    first: u32,
    from: u32,
    to: u32,
) -> u64
    requires pass { IsOf task.now.table.now pass.old }
    requires first { first ≤ from }
    requires order { from ≤ to }
    requires more { to ≤ first + length more.old }
    requires inside { to ≤ states P.posed }
    ensures { IsSwept P.posed task.now.marks.now 1 from to pass.old.seat pass.new.seat result }
{
    let mut raises = 0;
    for state in from..to {
        task.gate.arrive(worker, state);
        if visit(task, pass, more, first, state) {
            raises += 1;
        }
    }
    raises
}

/// Updates a state that has a mark in either list, or any state in a whole round. Returns whether an exchange won. If
/// so, the state's predecessors after it are marked, unless the round is whole.
fn visit<P: Posing, G: Gate>(
    task: &Task<'_, P, G>,
    pass: &mut Pass<P>,
    more: &mut [bool],
    first: u32,
    state: u32,
) -> bool
    requires pass { IsOf task.now.table.now pass.old }
    requires state { state < states P.posed }
    requires more { (first ≤ state) × (state < first + length more.old) }
    ensures grew { Grew pass.old pass.new }
    ensures step { IsMarked task.now.marks.now state
        → down_step P.posed (seen_by pass.old) state ≤ seen_by pass.new state }
    ensures won { MatchBool result (won_by pass.new ≡ won_by pass.old + 1) (won_by pass.new ≡ won_by pass.old) }
    ensures parts { parts_of pass.new ≡ parts_of pass.old }
{
    if !task.whole && !task.marks[state as usize] && !more[(state - first) as usize] {
        return false;
    }
    if !task.table.update(pass, state) {
        return false;
    }
    if !task.whole {
        mark_behind(task.predecessors, state, first, more);
    }
    true
}

/// Puts the halves of a round together.
pub fn meet<P: Posing>(table: &ValueTable<'_, P>, left: Rounded<P>, right: Rounded<P>) -> Rounded<P>
    requires left { IsOf table.now left.pass }
    requires right { IsOf table.now right.pass }
    requires fits { left.raises + right.raises < 2 ^ 64 }
    ensures left { Grew left.pass result.pass }
    ensures right { (s : ℕ) → seen_by right.pass s ≤ seen_by result.pass s }
    ensures won { won_by result.pass ≡ won_by left.pass + won_by right.pass }
    ensures raises { result.raises ≡ left.raises + right.raises }
    ensures parts { parts_of result.pass ≡ parts_of left.pass + parts_of right.pass }
{
    let Rounded { mut pass, raises } = left;
    let Rounded {
        pass: other,
        raises: more,
    } = right;
    table.meet(&mut pass, other);
    Rounded {
        pass,
        raises: raises + more,
    }
}
