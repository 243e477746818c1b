//! This module answers `solve` with bounds that a solver finds, if they pass the checks of an audit, or with exactly as
//! many steps as the formula names.

ghost use Rattle.std.specs.Prelude.{◌≡◌, ◌<◌, ◌≤◌, ℕ, List, Ok, Option, All, IfOk, option_map};
ghost use Rattle.text_lines.specs.Limits.{most_bytes};
ghost use Rattle.game_outside.specs.Outside.{Holding};
ghost use Rattle.rpatl_syntax.specs.Dual.{IsAtMostOne};
ghost use Rattle.rpatl_syntax.specs.Spellable.{HasKind};
ghost use Rattle.formula_reader.specs.Formula.{tree_of};
ghost use Rattle.command_words.specs.Words.{OfSolve, solve_of};
ghost use Rattle.inputs.specs.Loading.{LoadingLeaves};
ghost use Rattle.inputs.specs.Posed.{HasSizes, reading_of};
ghost use Rattle.inputs.specs.Problems.{initial_of, states_of};
ghost use Rattle.inputs.specs.Questions.{GivesValues, Reads};
ghost use Rattle.inputs.specs.SeenProblems.{HasDual, IsOfKind, problem_of};
ghost use Rattle.output.specs.Status.{IsAnswer};
ghost use Rattle.stogame_app.specs.inside.Answers.{IsAnswered};
ghost use Rattle.stogame_app.specs.Commands.{solve_paths};
ghost use Rattle.stogame_app.specs.inside.Posed.{IsReportable};
ghost use Rattle.stogame_app.specs.Reports.{IsReportOfWords, Solves};

use command_words::SolveWords;
use formula_reader::Formula;
use formula_reader::laws::formulas_inside_are_few;
use formula_truth::Way;
use game_outside::{Gate, OutOfMemory, Shelf};
use inputs::{End, Loaded, Paths, Problem, load_values, pose_loaded};
use output::Answer;
use reports::{nested_report, next_report, solved_report, within_report};
use rpatl_syntax::laws::formulas_of_texts_are_spellable;
use std::alloc::Global;
use std::thread::Threads;

/// A step has at most this many workers.
const WORKERS: u32 = 4;

/// Answers `solve` with its report on what was loaded, with values to begin with, which are read after it, or says why
/// there is none.
pub fn solve_loaded<R: Threads + Sync, H: Shelf, G: Gate + Sync>(
    rt: &R,
    alloc: Global,
    loaded: &Loaded,
    solve: &SolveWords<'_>,
    shelf: &mut H,
    gate: &G,
) -> Result<Answer, End>
    requires sizes { HasSizes loaded.now.game loaded.now.labels loaded.now.owners }
    requires share { IsAtMostOne loaded.now.formula.bound }
    requires taken { H.taken shelf.old ≤ most_bytes }
    requires read { (holding : Option Holding) × Reads holding (solve_of solve.now).asked (reading_of loaded.now) }
    ensures { (before : H) → Reads (H.held before) (solve_of solve.now).asked (reading_of loaded.now)
        → LoadingLeaves H.held H.steady H.faults H.taken before shelf.old (Ok loaded.now)
        → IsAnswered H.held H.steady H.faults H.taken (OfSolve (solve_of solve.now)) before shelf.new result }
{
    // These two calls do nothing: they are laws.
    formulas_of_texts_are_spellable();
    formulas_inside_are_few();
    let problem = pose_loaded(alloc, loaded, solve_paths(solve))?;
    let read = load_values(alloc, shelf, solve.values, states_in(&problem))?;
    let hints = as_hints(&read);
    let answer = report_on(rt, alloc, &problem, &loaded.formula, solve, hints, gate)?;
    Ok(answer)
}

// Reports on a problem by the kind of its paths, with its certificate if it is asked for.
fn report_on<R: Threads + Sync, G: Gate + Sync>(
    rt: &R,
    alloc: Global,
    problem: &Problem<'_>,
    formula: &Formula,
    solve: &SolveWords<'_>,
    hints: Option<&[f64]>,
    gate: &G,
) -> Result<Answer, OutOfMemory>
    requires inside { All (λ s. s < states_of (problem_of problem.now)) (initial_of (problem_of problem.now)) }
    requires kind { IsOfKind formula.now.kind problem.now }
    requires dual { HasDual (tree_of formula.now) problem.now }
    requires share { IsAtMostOne formula.now.bound }
    requires steps { HasKind formula.now.kind (tree_of formula.now).left }
    requires reportable { IsReportable problem.now (tree_of formula.now) }
    ensures report { IfOk result (λ answer. (words : List (List ℕ)) (holding : Option Holding) (taken : ℕ)
        → Solves words holding taken (solve_of solve.now) (problem_of problem.now) (tree_of formula.now)
        → GivesValues holding (solve_of solve.now).values (states_of (problem_of problem.now))
        → IsReportOfWords words holding taken answer.text.items answer.status) }
    ensures answer { IfOk result (λ answer. IsAnswer answer.status) }
{
    match problem {
        Problem::Reach(posed, _) => {
            let answered = problem.answered(formula);
            solved_report(rt, alloc, posed, formula, answered, solve.plan, hints, gate)
        }
        Problem::Within(posed, steps) => {
            within_report(rt, alloc, posed, *steps, formula, WORKERS, gate)
        }
        Problem::Next(posed) => next_report(rt, alloc, posed, formula, WORKERS, gate),
        Problem::Nested(loaded, initial) => {
            nested_report(rt, alloc, loaded, initial, Way::BySolver, WORKERS, gate)
        }
    }
}

// Says which formulas are taken. If a certificate is asked for or values are given, these are the formulas with no
// bound on the steps and no formula inside.
fn solve_paths(solve: &SolveWords<'_>) -> Paths
    ensures { result ≡ solve_paths (solve_of solve.now) }
{
    if solve.plan || solve.values.is_some() {
        Paths::Unbounded
    } else {
        Paths::Any
    }
}

// Counts the states of the game of a problem.
fn states_in(problem: &Problem<'_>) -> u32
    ensures { result ≡ states_of (problem_of problem.now) }
{
    match problem {
        Problem::Reach(posed, _) | Problem::Within(posed, _) => posed.question.game().states(),
        Problem::Next(posed) => posed.question.game().states(),
        Problem::Nested(loaded, _) => loaded.game.states(),
    }
}

// Borrows the values to begin with, if there are any.
fn as_hints(read: &Option<Vec<f64>>) -> Option<&[f64]>
    ensures { option_map (λ hints. hints.now) result ≡ option_map (λ values. values.items) read.now }
{
    match read {
        Some(values) => Some(values),
        None => None,
    }
}
