//! This module runs the rounds of a question.

ghost use Rattle.std.specs.Prelude.{◌≡◌, ◌≤◌, ◌<◌, All, IfOk};
ghost use Rattle.game_model.specs.Query.{states};
ghost use Rattle.game_model.specs.Dual.{IsZeroSet};
ghost use Rattle.predecessors.specs.Lists.{ArePredecessors};
ghost use Rattle.round_workers.specs.Share.{most_workers};
ghost use Rattle.verdicts.specs.Stop.{bound_of, IsStopRule};
ghost use Rattle.bracket_engine.specs.Limits.{most_rounds};
ghost use Rattle.bracket_engine.specs.BracketOfRun.{IsBracketOfRun};

use crate::bounds::Bracket;
use crate::closing::bracket_of;
use crate::parallel_sweep::ParallelSweep;
use crate::race::race;
use crate::rounds::Rounds;
use crate::stopping::Ending;
use game_model::{Marks, Question};
use game_outside::{Gate, OutOfMemory};
use inductive_check::swap;
use marked_rounds::busy_workers;
use predecessors::Predecessors;
use std::alloc::Global;
use std::marker::Brand;
use std::thread::Threads;
use verdicts::StopRule;

/// At most this many rounds may be asked for.
pub const MOST_ROUNDS: u32 = 1_000_000;

/// Returns the bracket after at most `rounds` rounds. Each round has at most `workers` workers, who pass the gate
/// before each state. The marks are the question's zero set. The only error is that memory ran out.
///
/// A round updates the lower table and then the swapped values, which are lower bounds of the swapped question. The run
/// ends early if both are settled. After 1, 2, 4, 8 and so on rounds a guess is made over the lower bounds. The run
/// ends if two bounds settle the rule at each initial state: the lower bound, and the lesser of the guess and of the
/// unit less the swapped value.
///
/// The base is the last lower table. The lower table is the lower guess of the base, which can find a value that only
/// the limit reaches, and no number of rounds. The upper table is the least of the unit less the swapped values, of the
/// guess over the base, and of the guess that ended the run, if any.
pub fn bracket<R: Threads + Sync, F: Fn(u64, u64) -> bool, G: Gate + Sync>(
    rt: &R,
    alloc: Global,
    question: &Question,
    zero: &Marks,
    rounds: u32,
    workers: u32,
    stop: &StopRule<F>,
    initial: &[u32],
    gate: &G,
) -> Result<Bracket, OutOfMemory>
    requires zero { IsZeroSet question.now zero.now }
    requires rounds { rounds ≤ most_rounds }
    requires some { 1 ≤ workers }
    requires few { workers ≤ most_workers }
    requires stop { IsStopRule F.Fn stop.now }
    requires initial { All (λ s. s < states question.now) initial.now }
    ensures { IfOk result (IsBracketOfRun question.now zero.now (bound_of stop.now) initial.now rounds) }
{
    let predecessors = Predecessors::of_game(alloc, question.game())?;
    bracket_over(
        rt,
        alloc,
        question,
        zero,
        &predecessors,
        rounds,
        workers,
        stop,
        initial,
        gate,
    )
}

/// Returns the bracket of [`bracket`] for a caller that has the lists of predecessors of the question's game. The only
/// error is that memory ran out.
pub fn bracket_over<R: Threads + Sync, F: Fn(u64, u64) -> bool, G: Gate + Sync>(
    rt: &R,
    alloc: Global,
    question: &Question,
    zero: &Marks,
    predecessors: &Predecessors,
    rounds: u32,
    workers: u32,
    stop: &StopRule<F>,
    initial: &[u32],
    gate: &G,
) -> Result<Bracket, OutOfMemory>
    requires zero { IsZeroSet question.now zero.now }
    requires lists { ArePredecessors question.now.game predecessors.now }
    requires rounds { rounds ≤ most_rounds }
    requires some { 1 ≤ workers }
    requires few { workers ≤ most_workers }
    requires stop { IsStopRule F.Fn stop.now }
    requires initial { All (λ s. s < states question.now) initial.now }
    ensures { IfOk result (IsBracketOfRun question.now zero.now (bound_of stop.now) initial.now rounds) }
{
    question.invariant();
    let swapped_question = swap(alloc, question, zero)?;
    let ending = Ending {
        question,
        zero,
        predecessors,
        rule: stop,
        initial,
    };
    let parallel = ParallelSweep {
        rt,
        workers: busy_workers(question, workers, question.game().states()),
    };
    let made = Rounds {
        parallel: &parallel,
        ending: &ending,
        most: rounds,
        workers,
        gate,
    };
    let raced = race::<R, Brand, Brand, F, G>(alloc, &made, &swapped_question)?;
    bracket_of(alloc, &made, swapped_question, raced)
}
