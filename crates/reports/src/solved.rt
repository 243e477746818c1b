//! This module makes the answer of `solve`: a report of a plan that the tables of a solver led to.

ghost use Rattle.std.specs.Prelude.{◌≡◌, ◌<◌, All, IfOk};
ghost use Rattle.game_model.specs.Query.{states};
ghost use Rattle.rpatl_syntax.specs.Dual.{IsAtMostOne, answered as answered_of};
ghost use Rattle.formula_reader.specs.Formula.{tree_of};
ghost use Rattle.output.specs.Status.{IsAnswer};
ghost use Rattle.reports.specs.Solved.{IsSolved};

use crate::reports::{Formulas, make_answer};
use formula_reader::{Bound, Formula};
use formula_sets::Posed;
use game_outside::{Gate, OutOfMemory};
use output::Answer;
use predecessors::Predecessors;
use solved_questions::solve_question;
use std::alloc::Global;
use std::thread::Threads;
use verdicts::How;
use verdicts::laws::{mirrored_verdicts_are_those_of_the_dual, undecided_thresholds_are_left_open};

/// Writes one line for each initial state, with the bounds of a plan that passes an audit and is sound, and what they
/// say of the formula's bound. The certificate follows if it is asked for. If the bounds are far apart at an initial
/// state, they are compared with those of rounds. The question is that of the answered formula, which for `G` is the
/// dual, else the same. Values to begin with, one for each state, are only hints. The only error is that memory ran
/// out.
pub fn solved_report<R: Threads + Sync, G: Gate + Sync>(
    rt: &R,
    alloc: Global,
    posed: &Posed<'_>,
    spelled: &Formula,
    answered: &Formula,
    asked: bool,
    hints: Option<&[f64]>,
    gate: &G,
) -> Result<Answer, OutOfMemory>
    requires inside { All (λ s. s < states posed.now.question) posed.now.initial.items }
    requires same { tree_of answered.now ≡ answered_of (tree_of spelled.now) }
    requires share { IsAtMostOne spelled.now.bound }
    ensures report { IfOk result (λ answer. IsSolved posed.now.question posed.now.initial.items
        (tree_of spelled.now) asked answer.text.items answer.status) }
    ensures answer { IfOk result (λ answer. IsAnswer answer.status) }
{
    let question = &posed.question;
    let initial: &[u32] = &posed.initial;
    let predecessors = Predecessors::of_game(alloc, question.game())?;
    let plan = solve_question(
        rt,
        alloc,
        question,
        &predecessors,
        hints,
        Bound::AskMax,
        initial,
        gate,
    )?;
    // These calls do nothing: they recall what a question keeps, and two laws.
    question.invariant();
    undecided_thresholds_are_left_open();
    mirrored_verdicts_are_those_of_the_dual();
    let formulas = Formulas { spelled, answered };
    make_answer(alloc, &plan, How::Solved, formulas, initial, asked)
}
