//! This module runs a formula with formulas inside.

ghost use Rattle.std.specs.Prelude.{◌≡◌, ◌<◌, ◌≤◌, All, IfOk, length};
ghost use Rattle.std.specs.List.{range_with_len};
ghost use Rattle.game_model.specs.Limits.{unit};
ghost use Rattle.formula_reader.specs.Formula.{tree_of, formulas_inside};
ghost use Rattle.formula_tokens.specs.Limits.{longest};
ghost use Rattle.rpatl_syntax.specs.Spellable.{IsSpellable};
ghost use Rattle.game_outside.specs.Answers.{AnswersOrWants};
ghost use Rattle.formula_sets.specs.Posing.{initial_said, IsOutOfMemory};
ghost use Rattle.bracket_engine.specs.Limits.{most_rounds};
ghost use Rattle.bounded_rounds.specs.Limits.{most_workers};
ghost use Rattle.formula_truth.specs.InnerRuns.{rounds_of};
ghost use Rattle.nested_truth.specs.Nested.{IsNested};
ghost use Rattle.nested_truth.specs.Seen.{IsBand, band_of, model_of};

use crate::answer::Nested;
use crate::operators::bounds_of;
use crate::setting::Setting;
use crate::states::judge;
use formula_reader::Formula;
use formula_sets::{PoseFault, initial_of};
use formula_truth::Way;
use game_model::Game;
use game_outside::{Gate, OutOfMemory};
use label_reader::{Labels, Owners};
use predecessors::Predecessors;
use std::alloc::{AllocError, Global};
use std::thread::Threads;

/// Returns the bounds of a formula about a game whose states have these labels and owners, or the first reason why it
/// poses no question. `way` says how questions without a bound on the steps are answered. A run of rounds ends early if
/// its threshold is settled, for a formula inside at every state, and for the outermost formula at the initial states.
pub fn nested<R: Threads + Sync, G: Gate + Sync>(
    rt: &R,
    alloc: Global,
    game: &Game,
    labels: &Labels,
    owners: &Owners,
    formula: &Formula,
    way: Way,
    workers: u32,
    gate: &G,
) -> Result<Nested, PoseFault>
    requires labels { labels.now.states ≡ length game.now }
    requires owners { length owners.now.owners ≡ length game.now }
    requires spellable { IsSpellable (tree_of formula.now) }
    requires few { formulas_inside (tree_of formula.now) ≤ longest }
    requires rounds { rounds_of way ≤ most_rounds }
    requires workers { (1 ≤ workers) × (workers ≤ most_workers) }
    ensures posed { AnswersOrWants IsOutOfMemory (λ nested. nested.initial.items) result
        (initial_said labels.now owners.now (tree_of formula.now)) }
    ensures nested { IfOk result (λ nested. IsNested (record
        { game = game.now; labels = labels.now; owners = owners.now }) (tree_of formula.now) nested.initial.items way
        (band_of nested) nested.how nested.inner nested.undecided) }
    ensures inside { IfOk result (λ nested. All (λ s. s < length game.now) nested.initial.items) }
    ensures many { IfOk result (λ nested. (length nested.lower.items ≡ length game.now)
        × (length nested.upper.items ≡ length game.now)) }
    ensures units { IfOk result (λ nested. All (λ v. v ≤ unit) nested.lower.items
        × All (λ v. v ≤ unit) nested.upper.items) }
{
    labels.invariant();
    let initial = initial_of(alloc, labels, owners, formula)?;
    match answer(
        rt, alloc, game, labels, owners, formula, way, workers, initial, gate,
    ) {
        Ok(nested) => Ok(nested),
        Err(_) => Err(PoseFault::OutOfMemory),
    }
}

// Finds the answer with these initial states.
fn answer<R: Threads + Sync, G: Gate + Sync>(
    rt: &R,
    alloc: Global,
    game: &Game,
    labels: &Labels,
    owners: &Owners,
    formula: &Formula,
    way: Way,
    workers: u32,
    initial: Vec<u32>,
    gate: &G,
) -> Result<Nested, OutOfMemory>
    requires labels { labels.now.states ≡ length game.now }
    requires owners { length owners.now.owners ≡ length game.now }
    requires spellable { IsSpellable (tree_of formula.now) }
    requires few { formulas_inside (tree_of formula.now) ≤ longest }
    requires rounds { rounds_of way ≤ most_rounds }
    requires workers { (1 ≤ workers) × (workers ≤ most_workers) }
    requires initial { All (λ s. s < length game.now) initial.items }
    ensures initial { IfOk result (λ nested. nested.initial.items ≡ initial.items) }
    ensures nested { IfOk result (λ nested. IsNested (record
        { game = game.now; labels = labels.now; owners = owners.now }) (tree_of formula.now) initial.items way
        (band_of nested) nested.how nested.inner nested.undecided) }
    ensures band { IfOk result (λ nested. IsBand (length game.now) (band_of nested)) }
{
    game.invariant();
    let predecessors = Predecessors::of_game(alloc, game)?;
    let everywhere = every_state(alloc, game.states())?;
    let setting = Setting {
        game,
        labels,
        owners,
        predecessors: &predecessors,
        everywhere: &everywhere,
        way,
        workers,
    };
    answer_in(rt, alloc, setting, formula, initial, gate)
}

// Finds the answer from the answers to both sides.
fn answer_in<R: Threads + Sync, G: Gate + Sync>(
    rt: &R,
    alloc: Global,
    setting: Setting<'_>,
    formula: &Formula,
    initial: Vec<u32>,
    gate: &G,
) -> Result<Nested, OutOfMemory>
    requires spellable { IsSpellable (tree_of formula.now) }
    requires few { formulas_inside (tree_of formula.now) ≤ longest }
    requires initial { All (λ s. s < length setting.game.now) initial.items }
    ensures initial { IfOk result (λ nested. nested.initial.items ≡ initial.items) }
    ensures nested { IfOk result (λ nested. IsNested (model_of setting.entry)
        (tree_of formula.now) initial.items setting.entry.way
        (band_of nested) nested.how nested.inner nested.undecided) }
    ensures band { IfOk result (λ nested. IsBand (length setting.entry.game.now) (band_of nested)) }
{
    let left = judge(rt, alloc, setting, &formula.left, gate)?;
    let right = judge(rt, alloc, setting, &formula.right, gate)?;
    let inner = left.inner + right.inner;
    let undecided = left.undecided + right.undecided;
    let bounds = bounds_of(
        rt, alloc, setting, formula, &left.sets, right.sets, &initial, false, gate,
    )?;
    Ok(Nested {
        initial,
        lower: bounds.lower,
        upper: bounds.upper,
        how: bounds.how,
        inner,
        undecided,
    })
}

// Lists every state, in rising order.
fn every_state(alloc: Global, states: u32) -> Result<Vec<u32>, AllocError>
    ensures { IfOk result (λ v. v.items ≡ range_with_len 0 states) }
{
    let mut all = Vec::with_capacity(alloc, states as usize)?;
    for state in 0..states {
        all.push(state)?;
    }
    Ok(all)
}
