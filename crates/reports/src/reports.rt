//! This module makes the answer to a question.

ghost use Rattle.std.specs.Prelude.{◌≡◌, ◌≤◌, ◌<◌, ◌++◌, All, IfOk, OnOk, length, map};
ghost use Rattle.game_model.specs.Query.{states};
ghost use Rattle.game_model.specs.Limits.{unit};
ghost use Rattle.predecessors.specs.Lists.{ArePredecessors};
ghost use Rattle.rpatl_syntax.specs.Dual.{IsAtMostOne, answered as answered_of};
ghost use Rattle.formula_reader.specs.Formula.{tree_of};
ghost use Rattle.plan_text.specs.Entries.{HasStates, greatest_rank};
ghost use Rattle.certificate_audit.specs.Accepted.{Passes};
ghost use Rattle.command_words.specs.Words.{AreInRange, check_of};
ghost use Rattle.output.specs.Printed.{certificate_of, output_of, status_of};
ghost use Rattle.reports.specs.Reports.{IsBracketReport, IsPrintedPlan};
ghost use Rattle.output.specs.Outputs.{certificate_part, output_text};
ghost use Rattle.output.specs.Status.{IsAnswer};

use bracket_engine::bracket_for;
use command_words::CheckWords;
use formula_reader::Formula;
use formula_sets::Posed;
use game_model::Question;
use game_outside::{Gate, OutOfMemory};
use output::{Answer, is_mirrored, report_of};
use plan_text::{Plan, append, append_plan};
use predecessors::Predecessors;
use rpatl_syntax::print_formula;
use std::alloc::Global;
use std::thread::Threads;
use trap_sets::lower_traps_over;
use verdicts::How;
use verdicts::laws::mirrored_verdicts_are_those_of_the_dual;

/// These are a formula as the words spell it, and the formula whose question is answered: for `G` its dual, else the
/// same.
#[derive(Clone, Copy)]
pub struct Formulas<'a> {
    pub spelled: &'a Formula,
    pub answered: &'a Formula,
}

/// Writes one line for each initial state, with the bounds after at most the asked rounds and what they say of the
/// formula's bound. The upper bounds are lowered to the best exits of traps if that is asked for. The certificate
/// follows if it is asked for. The question is that of the answered formula, which for `G` is the dual, else the same.
/// The only error is that memory ran out.
pub fn bracket_report<R: Threads + Sync, G: Gate + Sync>(
    rt: &R,
    alloc: Global,
    posed: &Posed<'_>,
    spelled: &Formula,
    answered: &Formula,
    check: &CheckWords<'_>,
    gate: &G,
) -> Result<Answer, OutOfMemory>
    requires inside { All (λ s. s < states posed.now.question) posed.now.initial.items }
    requires in_range { AreInRange (check_of check.now) }
    requires same { tree_of answered.now ≡ answered_of (tree_of spelled.now) }
    requires share { IsAtMostOne spelled.now.bound }
    ensures report { IfOk result (λ answer. IsBracketReport posed.now.question posed.now.initial.items
        (tree_of spelled.now) (check_of check.now) answer.text.items answer.status) }
    ensures answer { IfOk result (λ answer. IsAnswer answer.status) }
{
    let question = &posed.question;
    let initial: &[u32] = &posed.initial;
    let predecessors = Predecessors::of_game(alloc, question.game())?;
    let bracketed = bracket_for(
        rt,
        alloc,
        question,
        &predecessors,
        answered.bound,
        initial,
        check.rounds,
        check.workers,
        gate,
    )?;
    // These calls do nothing: they recall what a question keeps, and a law.
    question.invariant();
    mirrored_verdicts_are_those_of_the_dual();
    let found = bracketed.bracket;
    let how = How::Rounds(found.rounds);
    let formulas = Formulas { spelled, answered };
    let plan = shown(alloc, question, &predecessors, check.traps, found.plan)?;
    make_answer(alloc, &plan, how, formulas, initial, check.plan)
}

// Makes the plan that is printed of the one that was found. Its upper table is lowered to the best exits of traps if
// that is asked for.
fn shown(
    alloc: Global,
    question: &Question,
    predecessors: &Predecessors,
    traps: bool,
    found: Plan,
) -> Result<Plan, OutOfMemory>
    requires predecessors { ArePredecessors question.now.game predecessors.now }
    requires lists { HasStates found (states question.now) }
    requires passes { Passes question.now found }
    ensures shown { IfOk result (λ plan. IsPrintedPlan question.now traps found plan) }
    ensures lists { IfOk result (λ plan. HasStates plan (states question.now)) }
    ensures passes { IfOk result (λ plan. Passes question.now plan) }
{
    if !traps {
        return Ok(found);
    }
    let upper = lower_traps_over(alloc, question, predecessors, &found.upper, &found.replies)?;
    Ok(Plan { upper, ..found })
}

/// Makes the lines and the status of a plan, and its certificate if that is asked for.
pub fn make_answer(
    alloc: Global,
    plan: &Plan,
    how: How,
    formulas: Formulas<'_>,
    initial: &[u32],
    asked: bool,
) -> Result<Answer, OutOfMemory>
    requires same { tree_of formulas.answered.now ≡ answered_of (tree_of formulas.spelled.now) }
    requires inside { All (λ s. s < length plan.now.lower.items) initial.now }
    requires lists { HasStates plan.now (length plan.now.lower.items) }
    requires some { 1 ≤ length plan.now.lower.items }
    requires lower { All (λ v. v ≤ unit) plan.now.lower.items }
    requires upper { All (λ v. v ≤ unit) plan.now.upper.items }
    ensures ranks { All (λ r. r ≤ greatest_rank) plan.now.ranks.items }
    ensures text { IfOk result (λ answer. answer.text.items ≡ output_text
        (output_of asked (tree_of formulas.entry.spelled.now) how initial.now plan.now)) }
    ensures answer { IfOk result (λ answer. IsAnswer answer.status) }
    ensures status { IfOk result (λ answer. answer.status ≡ status_of
        (output_of asked (tree_of formulas.entry.spelled.now) how initial.now plan.now).lines) }
{
    known_ranks(&plan.ranks);
    let mut answer = report_of(
        alloc,
        is_mirrored(formulas.spelled),
        &formulas.spelled.bound,
        how,
        &plan.lower,
        &plan.upper,
        initial,
    )?;
    append_certificate(alloc, &mut answer.text, asked, formulas, plan)?;
    Ok(answer)
}

// The type of ranks keeps them within their limit.
fn known_ranks(ranks: &[u32])
    ensures { All (λ r. r ≤ greatest_rank) ranks.now }
{}

// Appends the formula and the certificate if they are asked for.
fn append_certificate(
    alloc: Global,
    text: &mut Vec<u8>,
    asked: bool,
    formulas: Formulas<'_>,
    plan: &Plan,
) -> Result<(), OutOfMemory>
    requires same { tree_of formulas.answered.now ≡ answered_of (tree_of formulas.spelled.now) }
    requires lists { HasStates plan.now (length plan.now.lower.items) }
    requires some { 1 ≤ length plan.now.lower.items }
    requires lower { All (λ v. v ≤ unit) plan.now.lower.items }
    requires upper { All (λ v. v ≤ unit) plan.now.upper.items }
    ensures { OnOk result (text.new.items ≡ text.old.items ++ certificate_part
        (certificate_of asked (tree_of formulas.entry.spelled.now) plan.now)) }
{
    if !asked {
        return Ok(());
    }
    append(text, b"formula ")?;
    append(text, &print_formula(alloc, formulas.answered)?)?;
    append(text, b"\n")?;
    append_plan(text, plan)
}
