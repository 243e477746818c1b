//! A question gets its zero set, and then its bracket for a bound.

ghost use Rattle.std.specs.Prelude.{◌≤◌, ◌<◌, All, IfOk};
ghost use Rattle.game_model.specs.Query.{states};
ghost use Rattle.game_model.specs.Dual.{IsZeroSet};
ghost use Rattle.predecessors.specs.Lists.{ArePredecessors};
ghost use Rattle.round_workers.specs.Share.{most_workers};
ghost use Rattle.bracket_engine.specs.Limits.{most_rounds};
ghost use Rattle.bracket_engine.specs.BracketOfRun.{IsBracketOfRun};

use crate::bounds::Bracket;
use crate::run::bracket_over;
use formula_reader::Bound;
use game_model::{Marks, Question};
use game_outside::{Gate, OutOfMemory};
use predecessors::Predecessors;
use std::alloc::Global;
use std::thread::Threads;
use verdicts::{StopRule, settle};
use zero_sets::zero_set_over;

/// This is a bracket with the zero set that it is made over.
#[derive(Drop)]
pub struct Bracketed {
    /// These are the states of value 0.
    pub zero: Marks,
    /// This is the bracket.
    pub bracket: Bracket,
}

/// Returns the zero set of a question, and the bracket of [`bracket_over`](crate::bracket_over) for a bound. The run
/// may end when the bound is settled at each initial state. The only error is that memory ran out.
pub fn bracket_for<R: Threads + Sync, G: Gate + Sync>(
    rt: &R,
    alloc: Global,
    question: &Question,
    predecessors: &Predecessors,
    bound: Bound,
    initial: &[u32],
    rounds: u32,
    workers: u32,
    gate: &G,
) -> Result<Bracketed, OutOfMemory>
    requires lists { ArePredecessors question.now.game predecessors.now }
    requires initial { All (λ s. s < states question.now) initial.now }
    requires rounds { rounds ≤ most_rounds }
    requires some { 1 ≤ workers }
    requires few { workers ≤ most_workers }
    ensures zero { IfOk result (λ it. IsZeroSet question.now it.zero) }
    ensures found { IfOk result (λ it. IsBracketOfRun question.now it.zero bound initial.now rounds it.bracket) }
{
    let zero = zero_set_over(alloc, question, predecessors)?;
    let stop = StopRule::of_bound(bound, |lower, upper| {
        settle(&bound, lower, upper).is_settling()
    });
    let bracket = bracket_over(
        rt,
        alloc,
        question,
        &zero,
        predecessors,
        rounds,
        workers,
        &stop,
        initial,
        gate,
    )?;
    Ok(Bracketed { zero, bracket })
}
