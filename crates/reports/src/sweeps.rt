//! This module makes the answer to a problem with a bound on the steps: exactly that many are made.

ghost use Rattle.std.specs.Prelude.{◌≡◌, ◌*◌, ◌<◌, ◌≤◌, ℕ, All, IfOk, false, length, slice_index};
ghost use Rattle.game_model.specs.Limits.{unit};
ghost use Rattle.game_model.specs.Query.{states};
ghost use Rattle.formula_reader.specs.Formula.{tree_of};
ghost use Rattle.bounded_rounds.specs.Exact.{exact_from};
ghost use Rattle.bounded_rounds.specs.Limits.{most_steps, most_workers};
ghost use Rattle.bounded_rounds.specs.Steps.{IsSweep};
ghost use Rattle.output.specs.Status.{IsAnswer};
ghost use Rattle.reports.specs.Sweeps.{IsNextReport, IsOpening, IsSweepReport, IsWithinReport};

use bounded_rounds::laws::{
    exact_values_are_k_step_values, one_step_is_the_next_value, rounded_steps_bracket_exact_values,
};
use bounded_rounds::{Sweep, bounded, bounded_values};
use formula_reader::Formula;
use formula_sets::{Posed, PosedNext};
use game_model::Question;
use game_outside::{Gate, OutOfMemory};
use output::{Answer, report_of};
use std::alloc::Global;
use std::thread::Threads;
use verdicts::How;
use verdicts::laws::verdicts_of_fractions_are_right;

/// Reports on `F<=k` and `U<=k` from the k-step values. The only error is that memory ran out.
pub fn within_report<R: Threads + Sync, G: Gate + Sync>(
    rt: &R,
    alloc: Global,
    posed: &Posed<'_>,
    steps: u32,
    formula: &Formula,
    workers: u32,
    gate: &G,
) -> Result<Answer, OutOfMemory>
    requires inside { All (λ s. s < states posed.now.question) posed.now.initial.items }
    requires steps { steps ≤ most_steps }
    requires workers { (1 ≤ workers) × (workers ≤ most_workers) }
    ensures report { IfOk result (λ answer. IsWithinReport posed.now.question steps posed.now.initial.items
        (tree_of formula.now) answer.text.items answer.status) }
    ensures answer { IfOk result (λ answer. IsAnswer answer.status) }
{
    // These calls do nothing: they recall what a question keeps, and a law.
    posed.question.invariant();
    exact_values_are_k_step_values();
    let sweep = bounded_values(rt, alloc, &posed.question, steps, workers, gate)?;
    sweep_report(
        alloc,
        &posed.question,
        &sweep,
        steps,
        &posed.initial,
        formula,
    )
}

/// Reports on `X` from the probabilities that the next state is one of those of an opening table. The only error is
/// that memory ran out.
pub fn next_report<R: Threads + Sync, G: Gate + Sync>(
    rt: &R,
    alloc: Global,
    posed: &PosedNext<'_>,
    formula: &Formula,
    workers: u32,
    gate: &G,
) -> Result<Answer, OutOfMemory>
    requires inside { All (λ s. s < states posed.now.question) posed.now.initial.items }
    requires opening { IsOpening posed.now.question posed.now.opening.items }
    requires workers { (1 ≤ workers) × (workers ≤ most_workers) }
    ensures report { IfOk result (λ answer. IsNextReport posed.now.question posed.now.opening.items
        posed.now.initial.items (tree_of formula.now) answer.text.items answer.status) }
    ensures answer { IfOk result (λ answer. IsAnswer answer.status) }
{
    // These calls do nothing: they recall what a question keeps, and a law.
    posed.question.invariant();
    one_step_is_the_next_value();
    let question = &posed.question;
    let sweep = bounded(rt, alloc, question, &posed.opening, 1, workers, gate)?;
    sweep_report(alloc, question, &sweep, 1, &posed.initial, formula)
}

// Reports on a sweep of this many steps, and bounds any numerators that give its exact values.
fn sweep_report(
    alloc: Global,
    question: &Question,
    sweep: &Sweep,
    steps: u32,
    initial: &[u32],
    formula: &Formula,
) -> Result<Answer, OutOfMemory>
    requires steps { steps ≤ most_steps }
    requires inside { All (λ s. s < states question.now) initial.now }
    requires many { (length sweep.now.lower.items ≡ states question.now)
        × (length sweep.now.upper.items ≡ states question.now) }
    requires units { All (λ v. v ≤ unit) sweep.now.lower.items × All (λ v. v ≤ unit) sweep.now.upper.items }
    ensures report { IfOk result (λ answer. (table numerators : ℕ → ℕ)
        → IsSweep question.now table steps sweep.now.lower.items sweep.now.upper.items
        → ((s : ℕ) → s < states question.now → exact_from question.now table steps s ≡ unit * numerators s)
        → IsSweepReport question.now table steps numerators initial.now
        (tree_of formula.now) answer.text.items answer.status) }
    ensures answer { IfOk result (λ answer. IsAnswer answer.status) }
{
    // These calls do nothing: they recall what a question keeps, and two laws.
    question.invariant();
    rounded_steps_bracket_exact_values();
    verdicts_of_fractions_are_right();
    report_of(
        alloc,
        false,
        &formula.bound,
        How::Steps(steps),
        &sweep.lower,
        &sweep.upper,
        initial,
    )
}
