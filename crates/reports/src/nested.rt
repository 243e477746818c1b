//! This module makes the answer to a formula with others inside.

ghost use Rattle.std.specs.Prelude.{◌≡◌, ◌<◌, ◌≤◌, ◌^◌, ◌++◌, All, IfOk, false, length, map};
ghost use Rattle.std.specs.String.{string_bytes};
ghost use Rattle.formula_reader.specs.Formula.{tree_of};
ghost use Rattle.game_model.specs.Limits.{unit};
ghost use Rattle.verdicts.specs.Report.{HasCount, report};
ghost use Rattle.bracket_engine.specs.Limits.{most_rounds};
ghost use Rattle.bounded_rounds.specs.Limits.{most_workers};
ghost use Rattle.formula_truth.specs.InnerRuns.{rounds_of};
ghost use Rattle.reports.specs.Nested.{IsAnswerable, IsNestedReport, inside_text};
ghost use Rattle.output.specs.Printed.{line_of, status_of};
ghost use Rattle.output.specs.Status.{IsAnswer};

use formula_truth::Way;
use game_outside::{Gate, OutOfMemory};
use inputs::Loaded;
use nested_truth::{Nested, nested};
use output::{Answer, report_of};
use plan_text::append;
use std::alloc::{AllocError, Global};
use std::thread::Threads;
use verdicts::How;

/// Writes a line that says how many formulas are inside and how many pairs of one of them and a state are left
/// undecided, and then a line for each of these initial states. Questions without a bound on the steps are answered in
/// this way. The only error is that memory ran out.
pub fn nested_report<R: Threads + Sync, G: Gate + Sync>(
    rt: &R,
    alloc: Global,
    loaded: &Loaded,
    initial: &[u32],
    way: Way,
    workers: u32,
    gate: &G,
) -> Result<Answer, OutOfMemory>
    requires rounds { rounds_of way ≤ most_rounds }
    requires workers { (1 ≤ workers) × (workers ≤ most_workers) }
    requires answerable { IsAnswerable loaded.now initial.now }
    ensures report { IfOk result (λ answer. IsNestedReport (record
        { game = loaded.now.game; labels = loaded.now.labels; owners = loaded.now.owners }) initial.now
        (tree_of loaded.now.formula) way answer.text.items answer.status) }
    ensures answer { IfOk result (λ answer. IsAnswer answer.status) }
{
    let Ok(found) = nested(
        rt,
        alloc,
        &loaded.game,
        &loaded.labels,
        &loaded.owners,
        &loaded.formula,
        way,
        workers,
        gate,
    ) else {
        return Err(OutOfMemory {});
    };
    // These calls do nothing: they recall what a game and the numbers keep.
    loaded.game.invariant();
    known_numbers(found.how, found.inner, found.undecided);
    written(alloc, loaded, &found)
}

// The types of these numbers keep them within their limits.
fn known_numbers(how: How, inner: u32, undecided: u32)
    ensures how { HasCount how }
    ensures inner { inner < 2 ^ 32 }
    ensures undecided { undecided < 2 ^ 32 }
{}

// Writes the line about the formulas inside, and a line for each initial state.
fn written(alloc: Global, loaded: &Loaded, found: &Nested) -> Result<Answer, OutOfMemory>
    requires inside { All (λ s. s < length found.now.lower.items) found.now.initial.items }
    requires as_many { length found.now.upper.items ≡ length found.now.lower.items }
    requires lower { All (λ v. v ≤ unit) found.now.lower.items }
    requires upper { All (λ v. v ≤ unit) found.now.upper.items }
    ensures text { IfOk result (λ answer. answer.text.items ≡ inside_text found.now.inner found.now.undecided
        ++ report (map (line_of false loaded.now.formula.bound found.now.how found.now.lower.items
        found.now.upper.items) found.now.initial.items)) }
    ensures status { IfOk result (λ answer. answer.status ≡ status_of
        (map (line_of false loaded.now.formula.bound found.now.how found.now.lower.items found.now.upper.items)
        found.now.initial.items)) }
    ensures answer { IfOk result (λ answer. IsAnswer answer.status) }
{
    let line = inside_line(alloc, found.inner, found.undecided)?;
    let report = report_of(
        alloc,
        false,
        &loaded.formula.bound,
        found.how,
        &found.lower,
        &found.upper,
        &found.initial,
    )?;
    let mut text = line.into_bytes();
    append(&mut text, &report.text)?;
    Ok(Answer {
        text,
        status: report.status,
    })
}

// Writes how many formulas are inside, and how many pairs of one of them and a state are left undecided.
fn inside_line(alloc: Global, inner: u32, undecided: u32) -> Result<String, AllocError>
    ensures { IfOk result (λ line. string_bytes line ≡ inside_text inner undecided) }
{
    format!(in alloc; "inner {inner} undecided {undecided}\n")
}
