//! This module answers questions without a bound on the steps, by brackets of rounds or by plans of a solver.

ghost use Rattle.std.specs.Prelude.{◌≡◌, ◌≢◌, ◌<◌, All, IfOk, IfSome, length};
ghost use Rattle.game_model.specs.Query.{states};
ghost use Rattle.formula_truth.specs.InnerRuns.{AreAnswered, IsAnsweredBy};
ghost use Rattle.nested_truth.specs.Seen.{IsBand, band_in, high_or};

use crate::bounds::Bounds;
use crate::questions::Questions;
use crate::setting::Setting;
use bracket_engine::bracket_for;
use formula_reader::Bound;
use formula_truth::Way;
use game_model::Question;
use game_outside::{Gate, OutOfMemory};
use plan_text::Plan;
use solved_questions::solve_question;
use std::alloc::Global;
use std::thread::Threads;
use verdicts::How;

/// Finds the lower bounds of one question and the upper ones of another, by one answer if the questions are the same. A
/// run of rounds ends when the bound is settled at all of these states. A solver is asked about those of them where it
/// is not settled, and for the outermost formula about all.
pub fn answer_both<R: Threads + Sync, G: Gate + Sync>(
    rt: &R,
    alloc: Global,
    setting: Setting<'_>,
    questions: &Questions<'_>,
    bound: Bound,
    starts: &[u32],
    is_inside: bool,
    gate: &G,
) -> Result<Bounds, OutOfMemory>
    requires other { IfSome questions.now.high (λ question. questions.now.low ≢ question) }
    requires low { questions.now.low.game ≡ setting.game.now }
    requires high { (high_or questions.now.low questions.now.high).game ≡ setting.game.now }
    requires starts { All (λ s. s < length setting.game.now) starts.now }
    ensures answered { IfOk result (λ bounds. AreAnswered questions.now.low
        (high_or questions.now.low questions.now.high) bound starts.now setting.entry.way
        (band_in bounds) bounds.how) }
    ensures band { IfOk result (λ bounds. IsBand (length setting.entry.game.now) (band_in bounds)) }
{
    let Bounds { lower, upper, how } = answer_one(
        rt,
        alloc,
        setting,
        &questions.low,
        bound,
        starts,
        is_inside,
        gate,
    )?;
    match &questions.high {
        None => Ok(Bounds { lower, upper, how }),
        Some(high) => {
            let upper = answer_one(rt, alloc, setting, high, bound, starts, is_inside, gate)?.upper;
            Ok(Bounds { lower, upper, how })
        }
    }
}

// Answers one question.
fn answer_one<R: Threads + Sync, G: Gate + Sync>(
    rt: &R,
    alloc: Global,
    setting: Setting<'_>,
    question: &Question<'_>,
    bound: Bound,
    starts: &[u32],
    is_inside: bool,
    gate: &G,
) -> Result<Bounds, OutOfMemory>
    requires game { question.now.game ≡ setting.game.now }
    requires starts { All (λ s. s < length setting.game.now) starts.now }
    ensures answer { IfOk result (λ bounds. IsAnsweredBy setting.entry.way question.now bound starts.now
        bounds.lower.items bounds.upper.items bounds.how) }
    ensures band { IfOk result (λ bounds. IsBand (length setting.entry.game.now) (band_in bounds)) }
{
    let predecessors = setting.predecessors;
    let workers = setting.workers;
    match setting.way {
        Way::ByRounds(rounds) => {
            let found = bracket_for(
                rt,
                alloc,
                question,
                predecessors,
                bound,
                starts,
                rounds,
                workers,
                gate,
            )?;
            let bracket = found.bracket;
            let how = How::Rounds(bracket.rounds);
            let Plan { lower, upper, .. } = bracket.plan;
            Ok(Bounds { lower, upper, how })
        }
        Way::BySolver => {
            let left = left_open(bound, is_inside);
            let Plan { lower, upper, .. } = solve_question(
                rt,
                alloc,
                question,
                predecessors,
                None,
                left,
                starts,
                gate,
            )?;
            let how = How::Solved;
            Ok(Bounds { lower, upper, how })
        }
    }
}

// Returns the bound that has to be settled at a state so that nothing more is asked about it.
fn left_open(bound: Bound, is_inside: bool) -> Bound {
    if is_inside { bound } else { Bound::AskMax }
}
