//! This module finds the bounds of a formula whose sides are known in part.

ghost use Rattle.std.specs.Prelude.{◌≡◌, ◌<◌, All, IfOk, length};
ghost use Rattle.formula_reader.specs.Formula.{state_of, tree_of};
ghost use Rattle.rpatl_syntax.specs.Spellable.{HasKind, HasShare};
ghost use Rattle.formula_truth.specs.ThreeValued.{Known};
ghost use Rattle.formula_truth.specs.InnerRuns.{AreFoundBy};
ghost use Rattle.nested_truth.specs.Seen.{IsBand, band_in, model_of, seen};

use crate::answering::answer_both;
use crate::bounds::Bounds;
use crate::known_sets::KnownSets;
use crate::questions::Questions;
use crate::setting::Setting;
use crate::sweeps::{next_sweep, sweep};
use formula_reader::{Formula, PathKind};
use game_outside::{Gate, OutOfMemory};
use rpatl_syntax::dual;
use std::alloc::Global;
use std::thread::Threads;

/// Finds the bounds of a formula from what is known of its sides. A run of rounds ends when the threshold is settled at
/// all states of `starts`.
pub fn bounds_of<R: Threads + Sync, G: Gate + Sync>(
    rt: &R,
    alloc: Global,
    setting: Setting<'_>,
    formula: &Formula,
    left: &KnownSets,
    right: KnownSets,
    starts: &[u32],
    is_inside: bool,
    gate: &G,
) -> Result<Bounds, OutOfMemory>
    requires kind { HasKind formula.now.kind (state_of formula.now.left) }
    requires share { HasShare formula.now.bound }
    requires left { length left.now.sure.items ≡ length setting.game.now }
    requires right { length right.sure.items ≡ length setting.game.now }
    requires starts { All (λ s. s < length setting.game.now) starts.now }
    ensures found { IfOk result (λ bounds. AreFoundBy formula.now.kind (model_of setting.entry) (tree_of formula.now)
        (seen left.now) (seen right) starts.now setting.entry.way (band_in bounds) bounds.how) }
    ensures band { IfOk result (λ bounds. IsBand (length setting.entry.game.now) (band_in bounds)) }
{
    match formula.kind {
        PathKind::Until => reached(
            rt, alloc, setting, formula, left, &right, starts, is_inside, gate,
        ),
        PathKind::Within(steps) => {
            let questions = Questions::of_formula(alloc, setting, formula, left, &right)?;
            sweep(rt, alloc, setting, &questions, steps, gate)
        }
        PathKind::Next => next_sweep(rt, alloc, setting, formula, &right, gate),
        PathKind::Always => always(rt, alloc, setting, formula, right, starts, is_inside, gate),
    }
}

// Finds the bounds of a formula without a bound on the steps.
fn reached<R: Threads + Sync, G: Gate + Sync>(
    rt: &R,
    alloc: Global,
    setting: Setting<'_>,
    formula: &Formula,
    left: &KnownSets,
    right: &KnownSets,
    starts: &[u32],
    is_inside: bool,
    gate: &G,
) -> Result<Bounds, OutOfMemory>
    requires left { length left.now.sure.items ≡ length setting.game.now }
    requires right { length right.now.sure.items ≡ length setting.game.now }
    requires starts { All (λ s. s < length setting.game.now) starts.now }
    ensures found { IfOk result (λ bounds. AreFoundBy PathKind.Until (model_of setting.entry) (tree_of formula.now)
        (seen left.now) (seen right.now) starts.now setting.entry.way (band_in bounds) bounds.how) }
    ensures band { IfOk result (λ bounds. IsBand (length setting.entry.game.now) (band_in bounds)) }
{
    let questions = Questions::of_formula(alloc, setting, formula, left, right)?;
    answer_both(
        rt,
        alloc,
        setting,
        &questions,
        formula.bound,
        starts,
        is_inside,
        gate,
    )
}

// Finds the bounds of a formula with `G`, which are 1 less those of its dual.
fn always<R: Threads + Sync, G: Gate + Sync>(
    rt: &R,
    alloc: Global,
    setting: Setting<'_>,
    formula: &Formula,
    right: KnownSets,
    starts: &[u32],
    is_inside: bool,
    gate: &G,
) -> Result<Bounds, OutOfMemory>
    requires kind { formula.now.kind ≡ PathKind.Always }
    requires share { HasShare formula.now.bound }
    requires right { length right.sure.items ≡ length setting.game.now }
    requires starts { All (λ s. s < length setting.game.now) starts.now }
    ensures found { IfOk result (λ bounds. (left : Known) → AreFoundBy PathKind.Always (model_of setting.entry)
        (tree_of formula.now) left (seen right) starts.now setting.entry.way (band_in bounds) bounds.how) }
    ensures band { IfOk result (λ bounds. IsBand (length setting.entry.game.now) (band_in bounds)) }
{
    let dual = dual(alloc, formula)?;
    let left = KnownSets::same_at_all(alloc, true, setting.game.states())?;
    let right = right.negated();
    let found = reached(
        rt, alloc, setting, &dual, &left, &right, starts, is_inside, gate,
    )?;
    found.mirrored(alloc)
}
