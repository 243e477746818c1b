//! This module finds what is known of state formulas from bounds of the formulas inside.

ghost use Rattle.std.specs.Prelude.{◌≤◌, IfOk, if◌then◌else◌};
ghost use Rattle.formula_reader.specs.Formula.{True, False, Label, formulas_in, inner_of, state_of, tree_of};
ghost use Rattle.formula_tokens.specs.Limits.{longest};
ghost use Rattle.rpatl_syntax.specs.Spellable.{HasParts};
ghost use Rattle.nested_truth.specs.Seen.{IsJudged, model_of};

use crate::judging::{Judged, judged_by};
use crate::known_sets::KnownSets;
use crate::operators::bounds_of;
use crate::setting::Setting;
use formula_reader::{Formula, StateFormula};
use game_outside::{Gate, Name, OutOfMemory};
use std::alloc::Global;
use std::thread::Threads;

/// Finds what is known of a state formula. Each formula inside is answered first, at every state.
#[cycle(judged)]
pub fn judge<R: Threads + Sync, G: Gate + Sync>(
    rt: &R,
    alloc: Global,
    setting: Setting<'_>,
    formula: &StateFormula,
    gate: &G,
) -> Result<Judged, OutOfMemory>
    requires few { formulas_in (state_of formula.now) ≤ longest }
    requires parts { HasParts (state_of formula.now) }
    ensures { IfOk result (IsJudged (model_of setting.entry) setting.entry.way (state_of formula.now)) }
{
    match formula {
        StateFormula::True => same_at_all(alloc, setting, true),
        StateFormula::False => same_at_all(alloc, setting, false),
        StateFormula::Label(name) => labelled(alloc, setting, name),
        StateFormula::Not(x) => Ok(judge(rt, alloc, setting, x, gate)?.negated()),
        StateFormula::And(x, y) => {
            let x = judge(rt, alloc, setting, x, gate)?;
            let y = judge(rt, alloc, setting, y, gate)?;
            Ok(x.both(y))
        }
        StateFormula::Or(x, y) => {
            let x = judge(rt, alloc, setting, x, gate)?;
            let y = judge(rt, alloc, setting, y, gate)?;
            Ok(x.either(y))
        }
        StateFormula::Implies(x, y) => {
            let x = judge(rt, alloc, setting, x, gate)?;
            let y = judge(rt, alloc, setting, y, gate)?;
            Ok(x.implied(y))
        }
        StateFormula::Inner(inside) => judge_inside(rt, alloc, setting, inside, gate),
    }
}

// Finds what is known of a formula inside from its bounds at every state.
#[cycle(judged)]
fn judge_inside<R: Threads + Sync, G: Gate + Sync>(
    rt: &R,
    alloc: Global,
    setting: Setting<'_>,
    formula: &Formula,
    gate: &G,
) -> Result<Judged, OutOfMemory>
    requires few { formulas_in (inner_of (tree_of formula.now)) ≤ longest }
    requires parts { HasParts (inner_of (tree_of formula.now)) }
    ensures { IfOk result (IsJudged (model_of setting.entry) setting.entry.way (inner_of (tree_of formula.now))) }
{
    let left = judge(rt, alloc, setting, &formula.left, gate)?;
    let right = judge(rt, alloc, setting, &formula.right, gate)?;
    let inner = left.inner + right.inner + 1;
    let before = left.undecided + right.undecided;
    let starts = setting.everywhere;
    let bounds = bounds_of(
        rt, alloc, setting, formula, &left.sets, right.sets, starts, true, gate,
    )?;
    let (sets, undecided) = judged_by(alloc, &formula.bound, &bounds, setting.game.states())?;
    Ok(Judged {
        sets,
        inner,
        undecided: undecided + before,
    })
}

// Says that `true` or `false` is known at every state.
fn same_at_all(alloc: Global, setting: Setting<'_>, holds: bool) -> Result<Judged, OutOfMemory>
    ensures { IfOk result (IsJudged (model_of setting.entry) setting.entry.way (if holds then True else False)) }
{
    Ok(Judged {
        sets: KnownSets::same_at_all(alloc, holds, setting.game.states())?,
        inner: 0,
        undecided: 0,
    })
}

// Says that a label is known at every state.
fn labelled(alloc: Global, setting: Setting<'_>, name: &Name) -> Result<Judged, OutOfMemory>
    ensures { IfOk result (IsJudged (model_of setting.entry) setting.entry.way (Label name.now)) }
{
    let states = setting.game.states();
    Ok(Judged {
        sets: KnownSets::of_label(alloc, setting.labels, name, states)?,
        inner: 0,
        undecided: 0,
    })
}
