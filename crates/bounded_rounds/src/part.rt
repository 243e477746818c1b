//! This module takes the steps of one worker.

ghost use Rattle.std.specs.Prelude.{◌≡◌, ◌+◌, ◌<◌, ◌≤◌, length, slice_index, All, false};
ghost use Rattle.game_model.specs.Query.{states};
ghost use Rattle.game_model.specs.Rounded.{down_step, up_step};
ghost use Rattle.fixed_bellman.specs.Bounds.{lowers, uppers, AreUnits};
ghost use Rattle.bounded_rounds.specs.inside.OfTables.{IsPartFrom, IsStepOf};

use crate::tables::Tables;
use fixed_bellman::{Bounds, step_bounds};
use game_model::UNIT;
use game_outside::Gate;

/// This many states are stepped between two looks ahead.
const STRETCH: usize = 64;

/// The table of this many states stays near the processor. With more states, it pays to look ahead.
const MOST_NEAR: u32 = 131_072;

/// Takes the steps at the states in a row from `first` on, by one worker, who passes the gate before each state. If it
/// answers no, each of the steps is the entry of the table.
pub fn step_part<G: Gate>(
    tables: Tables<'_>,
    gate: &G,
    worker: u32,
    first: u32,
    next: &mut [Bounds],
) -> bool
    requires { IsPartFrom tables first next.old }
    ensures { IsStepOf tables.entry first (length next.old) next.new result }
{
    tables.question.invariant();
    let mut changed = false;
    let mut from = 0;
    while from < next.len() {
        let to = next.len().min(from + STRETCH);
        let before = changed | look_ahead(tables, first + from as u32, first + to as u32);
        changed = step_stretch(tables, gate, worker, first, next, from, to, before);
        from = to;
    }
    changed
}

/// Reads the entries of the successors of a stretch of states, so that the memory fetches them at once. No entry is
/// above the unit, so it answers no. The compiler keeps the reads, because the answer is used.
fn look_ahead(tables: Tables<'_>, from: u32, to: u32) -> bool
    requires order { from ≤ to }
    requires inside { to ≤ states tables.question.now }
    ensures { result ≡ false }
{
    let game = tables.question.game();
    game.states() > MOST_NEAR && has_excess(tables.table, game.successors_between(from, to))
}

/// Returns whether an entry of these states is above the unit.
fn has_excess(table: &[Bounds], wanted: &[u32]) -> bool
    requires inside { All (λ s. s < length table.now) wanted.now }
    requires units { All AreUnits table.now }
    ensures { result ≡ false }
{
    wanted
        .iter()
        .any(|state| table[*state as usize].upper > UNIT)
}

/// Takes the steps at the states in a row from place `from` to place `to` of a part that has those below `from`.
fn step_stretch<G: Gate>(
    tables: Tables<'_>,
    gate: &G,
    worker: u32,
    first: u32,
    next: &mut [Bounds],
    from: usize,
    to: usize,
    before: bool,
) -> bool
    requires part { IsPartFrom tables first next.old }
    requires order { from ≤ to }
    requires inside { to ≤ length next.old }
    requires before { IsStepOf tables first from next.old before }
    ensures { IsStepOf tables.entry first to next.new result }
{
    tables.question.invariant();
    let mut changed = before;
    for place in from..to {
        let state = first + place as u32;
        gate.arrive(worker, state);
        let (bounds, new) = step_state(tables, state);
        next[place] = bounds;
        changed |= new;
    }
    changed
}

/// Returns the step of both bounds of a state, and whether one of them is not the entry there.
fn step_state(tables: Tables<'_>, state: u32) -> (Bounds, bool)
    requires { state < states tables.question.now }
    ensures down { result.0.lower ≡ down_step tables.entry.question.now
        (slice_index (lowers tables.entry.table.now)) state }
    ensures up { result.0.upper ≡ up_step tables.entry.question.now
        (slice_index (uppers tables.entry.table.now)) state }
    ensures units { AreUnits result.0 }
    ensures same { result.1 ≡ false → (result.0.lower ≡ slice_index (lowers tables.entry.table.now) state)
        × (result.0.upper ≡ slice_index (uppers tables.entry.table.now) state) }
{
    let bounds = step_bounds(tables.question, state, tables.table);
    let old = tables.table[state as usize];
    (
        bounds,
        bounds.lower != old.lower || bounds.upper != old.upper,
    )
}
