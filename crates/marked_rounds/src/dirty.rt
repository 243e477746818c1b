//! This module says between two rounds which states may rise.

ghost use Rattle.std.specs.Prelude.{◌≡◌, ℕ, ◌<◌, ◌≤◌, true, false, length, slice_index_or, IfOk};
ghost use Rattle.game_model.specs.Limits.{most_states};
ghost use Rattle.game_model.specs.Query.{states};
ghost use Rattle.game_model.specs.Rounded.{opening};
ghost use Rattle.predecessors.specs.Lists.{ArePredecessors};
ghost use Rattle.predecessors.specs.Marks.{IsMarked};
ghost use Rattle.round_workers.specs.Marks.{IsNextMark};
ghost use Rattle.value_words.specs.Passes.{IsOf, Looked, seen_by};
ghost use Rattle.marked_rounds.specs.DirtySet.{read_of, IsSized, IsStateRead, IsElsewhere, IsReadAgain, AreMarkedFor};

use fixed_bellman::Values;
use game_model::{Game, Question, UNIT};
use game_outside::OutOfMemory;
use predecessors::{Predecessors, mark_predecessors};
use round_workers::next_mark;
use std::alloc::Global;
use value_words::{Pass, Posing, ValueTable};

/// A dirty set has the values that were read last, and the states to update. A state without a mark is quiet: its down
/// step over these values is at most its own value.
#[derive(Drop)]
pub struct DirtySet {
    /// These are the values, by state.
    pub read: Vec<u64>,
    /// The next round updates the states with these marks.
    pub marks: Vec<bool>,
    /// All states are to be updated if this is true.
    pub whole: bool,
    /// Workers mark states here in a round. Once the states are read, the marked ones are those whose values changed.
    pub more: Vec<bool>,
}

impl DirtySet {
    /// Makes the first dirty set: all states are to be updated, and the values are those of the opening table.
    pub fn open(alloc: Global, question: &Question) -> Result<DirtySet, OutOfMemory>
        ensures sized { IfOk result (λ dirty. IsSized question.now dirty) }
        ensures opens { IfOk result (λ dirty. (s : ℕ) → s < states question.now
            → read_of dirty s ≡ opening question.now s) }
        ensures marked { IfOk result (λ dirty. (s : ℕ) → s < states question.now → IsMarked dirty.marks.items s) }
    {
        let states = question.game().states();
        let marks = vec![in alloc; true; states as usize]?;
        let more = vec![in alloc; false; states as usize]?;
        let mut read = Vec::with_capacity(alloc, states as usize)?;
        for state in 0..states {
            read.push(if question.is_goal(state) { UNIT } else { 0 })?;
        }
        Ok(DirtySet {
            read,
            marks,
            whole: true,
            more,
        })
    }
}

/// Returns the first place from one on that has a mark, or the number of marks if there is none. If the place itself
/// has one, no stretch is looked at.
fn mark_from(marks: &[bool], from: u32) -> u32
    requires few { length marks.now ≤ most_states }
    requires from { from ≤ length marks.now }
    ensures { IsNextMark marks.now from result }
{
    let place = from as usize;
    if place < marks.len() && marks[place] {
        return from;
    }
    next_mark(marks, from)
}

/// Takes the marks off. The states that were updated have the second mark then.
fn take_marks(dirty: &mut DirtySet)
    requires { length dirty.old.more.items ≡ length dirty.old.marks.items }
    ensures read { dirty.new.read.items ≡ dirty.old.read.items }
    ensures marks { length dirty.new.marks.items ≡ length dirty.old.marks.items }
    ensures more { length dirty.new.more.items ≡ length dirty.old.more.items }
    ensures marked { (s : ℕ) → IsMarked dirty.old.marks.items s → IsMarked dirty.new.more.items s }
    ensures part { dirty.new.whole ≡ false }
{
    for place in 0..dirty.more.len() {
        dirty.more[place] |= dirty.marks[place];
    }
    dirty.marks.fill(false);
    dirty.whole = false;
}

/// Reads the states that were updated, and says how many values changed. The states that changed have the second mark
/// then, and no state has another mark.
pub fn read_again<P: Posing>(
    table: &ValueTable<'_, P>,
    pass: &mut Pass<P>,
    dirty: &mut DirtySet,
) -> u32
    requires pass { IsOf table.now pass.old }
    requires sized { IsSized P.posed dirty.old }
    requires below { (s : ℕ) → s < states P.posed → read_of dirty.old s ≤ seen_by pass.old s }
    ensures looked { Looked pass.old pass.new }
    ensures sized { IsSized P.posed dirty.new }
    ensures again { IsReadAgain P.posed dirty.old dirty.new (seen_by pass.old) (seen_by pass.new) }
    ensures none { result ≡ 0 → (s : ℕ) → s < states P.posed → slice_index_or dirty.new.more.items s false ≡ false }
    ensures part { dirty.new.whole ≡ false }
{
    take_marks(dirty);
    read_marked(table, pass, dirty)
}

/// Reads the states with a second mark, and says how many values changed. The states that changed keep it, and the
/// others lose it.
fn read_marked<P: Posing>(
    table: &ValueTable<'_, P>,
    pass: &mut Pass<P>,
    dirty: &mut DirtySet,
) -> u32
    requires pass { IsOf table.now pass.old }
    requires sized { IsSized P.posed dirty.old }
    requires below { (s : ℕ) → s < states P.posed → read_of dirty.old s ≤ seen_by pass.old s }
    ensures looked { Looked pass.old pass.new }
    ensures sized { IsSized P.posed dirty.new }
    ensures again { (s : ℕ) → s < states P.posed
        → IsStateRead s dirty.old dirty.new (seen_by pass.old) (seen_by pass.new) }
    ensures none { result ≡ 0 → (s : ℕ) → s < states P.posed → slice_index_or dirty.new.more.items s false ≡ false }
    ensures whole { dirty.new.whole ≡ dirty.old.whole }
{
    let states = table.question().game().states();
    let mut changed: u32 = 0;
    let mut state = mark_from(&dirty.more, 0);
    while state < states {
        if read_state(table, pass, dirty, state) {
            changed = changed.saturating_add(1);
        }
        state = mark_from(&dirty.more, state + 1);
    }
    changed
}

/// Reads a state, and says whether its value changed. If not, the state loses its second mark.
fn read_state<P: Posing>(
    table: &ValueTable<'_, P>,
    pass: &mut Pass<P>,
    dirty: &mut DirtySet,
    state: u32,
) -> bool
    requires pass { IsOf table.now pass.old }
    requires state { state < states P.posed }
    requires sized { IsSized P.posed dirty.old }
    requires below { read_of dirty.old state ≤ seen_by pass.old state }
    ensures looked { Looked pass.old pass.new }
    ensures sized { IsSized P.posed dirty.new }
    ensures read { IsStateRead state dirty.old dirty.new (seen_by pass.old) (seen_by pass.new) }
    ensures elsewhere { IsElsewhere state dirty.old dirty.new }
    ensures changed { result ≡ slice_index_or dirty.new.more.items state false }
    ensures whole { dirty.new.whole ≡ dirty.old.whole }
{
    let place = state as usize;
    let value = table.value(pass, state);
    let changed = value != dirty.read[place];
    dirty.read[place] = value;
    dirty.more[place] = changed;
    changed
}

/// Marks the predecessors of the states that changed, or all states if most of them changed.
pub fn mark_again(game: &Game, predecessors: &Predecessors, dirty: &mut DirtySet, changed: u32)
    requires predecessors { ArePredecessors game.now predecessors.now }
    requires marks { length dirty.old.marks.items ≡ length game.now }
    requires more { length dirty.old.more.items ≡ length game.now }
    requires part { dirty.old.whole ≡ false }
    ensures read { dirty.new.read.items ≡ dirty.old.read.items }
    ensures marks { length dirty.new.marks.items ≡ length game.now }
    ensures more { length dirty.new.more.items ≡ length game.now }
    ensures marked { AreMarkedFor game.now dirty.old.more.items dirty.new.marks.items }
    ensures whole { dirty.new.whole ≡ true → (s : ℕ) → s < length game.now → IsMarked dirty.new.marks.items s }
{
    if changed > game.states() / 2 {
        mark_all(dirty);
    } else {
        mark_changed(game, predecessors, &mut dirty.more, &mut dirty.marks);
    }
}

/// Marks all states.
fn mark_all(dirty: &mut DirtySet)
    ensures read { dirty.new.read.items ≡ dirty.old.read.items }
    ensures marks { length dirty.new.marks.items ≡ length dirty.old.marks.items }
    ensures more { length dirty.new.more.items ≡ length dirty.old.more.items }
    ensures marked { (s : ℕ) → s < length dirty.old.marks.items → IsMarked dirty.new.marks.items s }
{
    dirty.marks.fill(true);
    dirty.whole = true;
    dirty.more.fill(false);
}

/// Marks the predecessors of the states that changed, and takes the second marks of these states off.
fn mark_changed(game: &Game, predecessors: &Predecessors, changed: &mut [bool], marks: &mut [bool])
    requires predecessors { ArePredecessors game.now predecessors.now }
    requires changed { length changed.old ≡ length game.now }
    requires marks { length marks.old ≡ length game.now }
    ensures changed { length changed.new ≡ length game.now }
    ensures marks { length marks.new ≡ length game.now }
    ensures marked { AreMarkedFor game.now changed.old marks.new }
{
    game.invariant();
    let mut state = mark_from(changed, 0);
    while state < game.states() {
        changed[state as usize] = false;
        mark_predecessors(game, predecessors, state, marks);
        state = mark_from(changed, state + 1);
    }
}
