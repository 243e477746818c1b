//! This module answers `check` with the bracket of a question, or with exactly as many steps as the formula names.

ghost use Rattle.std.specs.Prelude.{◌≡◌, ◌<◌, ℕ, List, Option, All, IfOk};
ghost use Rattle.game_outside.specs.Outside.{Holding};
ghost use Rattle.rpatl_syntax.specs.Dual.{IsAtMostOne};
ghost use Rattle.formula_reader.specs.Formula.{tree_of};
ghost use Rattle.rpatl_syntax.specs.Spellable.{HasKind};
ghost use Rattle.command_words.specs.Words.{AreInRange, OfCheck, check_of};
ghost use Rattle.inputs.specs.Posed.{HasSizes, reading_of};
ghost use Rattle.inputs.specs.Problems.{initial_of, states_of};
ghost use Rattle.inputs.specs.Questions.{Reads};
ghost use Rattle.inputs.specs.SeenProblems.{HasDual, IsOfKind, problem_of};
ghost use Rattle.output.specs.Status.{IsAnswer};
ghost use Rattle.stogame_app.specs.inside.Answers.{IsMadeOf};
ghost use Rattle.stogame_app.specs.Commands.{check_paths};
ghost use Rattle.stogame_app.specs.inside.Posed.{IsReportable};
ghost use Rattle.stogame_app.specs.Reports.{Checks, IsReportOfWords};

use command_words::CheckWords;
use formula_reader::Formula;
use formula_reader::laws::formulas_inside_are_few;
use formula_truth::Way;
use game_outside::{Gate, OutOfMemory};
use inputs::{End, Loaded, Paths, Problem, pose_loaded};
use output::Answer;
use reports::{bracket_report, nested_report, next_report, within_report};
use rpatl_syntax::laws::formulas_of_texts_are_spellable;
use std::alloc::Global;
use std::thread::Threads;

/// Answers `check` with its report on what was loaded, and a certificate if it is asked for, or says why there is none.
/// This function does not own the model, because what a function owns has to be proved released at each of its exits.
pub fn check_loaded<R: Threads + Sync, G: Gate + Sync>(
    rt: &R,
    alloc: Global,
    loaded: &Loaded,
    check: &CheckWords<'_>,
    gate: &G,
) -> Result<Answer, End>
    requires in_range { AreInRange (check_of check.now) }
    requires sizes { HasSizes loaded.now.game loaded.now.labels loaded.now.owners }
    requires share { IsAtMostOne loaded.now.formula.bound }
    requires read { (holding : Option Holding) × Reads holding (check_of check.now).asked (reading_of loaded.now) }
    ensures { IsMadeOf (OfCheck (check_of check.now)) (check_of check.now).asked (reading_of loaded.now) result }
{
    // These two calls do nothing: they are laws.
    formulas_of_texts_are_spellable();
    formulas_inside_are_few();
    let problem = pose_loaded(alloc, loaded, check_paths(check))?;
    let answer = report_on(rt, alloc, &problem, &loaded.formula, check, gate)?;
    Ok(answer)
}

// Reports on a problem by the kind of its paths, with its certificate if it is asked for.
fn report_on<R: Threads + Sync, G: Gate + Sync>(
    rt: &R,
    alloc: Global,
    problem: &Problem<'_>,
    formula: &Formula,
    check: &CheckWords<'_>,
    gate: &G,
) -> Result<Answer, OutOfMemory>
    requires in_range { AreInRange (check_of check.now) }
    requires inside { All (λ s. s < states_of (problem_of problem.now)) (initial_of (problem_of problem.now)) }
    requires kind { IsOfKind formula.now.kind problem.now }
    requires dual { HasDual (tree_of formula.now) problem.now }
    requires share { IsAtMostOne formula.now.bound }
    requires steps { HasKind formula.now.kind (tree_of formula.now).left }
    requires reportable { IsReportable problem.now (tree_of formula.now) }
    ensures report { IfOk result (λ answer. (words : List (List ℕ)) (holding : Option Holding) (taken : ℕ)
        → Checks words holding taken (check_of check.now) (problem_of problem.now) (tree_of formula.now)
        → IsReportOfWords words holding taken answer.text.items answer.status) }
    ensures answer { IfOk result (λ answer. IsAnswer answer.status) }
{
    match problem {
        Problem::Reach(posed, _) => {
            let answered = problem.answered(formula);
            bracket_report(rt, alloc, posed, formula, answered, check, gate)
        }
        Problem::Within(posed, steps) => {
            within_report(rt, alloc, posed, *steps, formula, check.workers, gate)
        }
        Problem::Next(posed) => next_report(rt, alloc, posed, formula, check.workers, gate),
        Problem::Nested(loaded, initial) => {
            let way = Way::ByRounds(check.rounds);
            nested_report(rt, alloc, loaded, initial, way, check.workers, gate)
        }
    }
}

// Says which formulas are taken. If a certificate or lowered upper bounds are asked for, these are the formulas with no
// bound on the steps and no formula inside.
fn check_paths(check: &CheckWords<'_>) -> Paths
    ensures { result ≡ check_paths (check_of check.now) }
{
    if check.plan || check.traps {
        Paths::Unbounded
    } else {
        Paths::Any
    }
}
