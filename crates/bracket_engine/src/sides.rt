//! The two sides of a bracket are made at once if there are several workers.

ghost use Rattle.std.specs.Prelude.{◌≡◌, slice_index, IfOk};
ghost use Rattle.std.specs.Thread.{IsSync};
ghost use Rattle.game_model.specs.Dual.{IsZeroSet};
ghost use Rattle.step_core.specs.Word.{values_of};
ghost use Rattle.step_core.specs.Sound.{AreSoundWords};
ghost use Rattle.bracket_engine.specs.inside.Sides.{IsLowerSide, IsUpperSide};
ghost use Rattle.bracket_engine.specs.Stop.{AreUpperParts};

use crate::base::Base;
use crate::lower::lower_side;
use crate::parallel_sweep::ParallelSweep;
use crate::stopping::SettlingGuess;
use crate::upper::{UpperSide, upper_side};
use game_outside::OutOfMemory;
use lower_guess::LowerGuess;
use std::alloc::Global;
use std::thread::{Threads, join};
use value_words::Words;

/// Makes both sides over a base, which has the values of these words. If the parallel sweep has several workers, one of
/// them makes the lower side while the others make the upper side. One worker makes the two sides in turn, and needs no
/// thread.
pub fn both_sides<R: Threads + Sync>(
    parallel: &ParallelSweep<'_, R>,
    alloc: Global,
    base: &Base<'_>,
    words: Words,
    swapped_values: Vec<u64>,
    kept: Option<SettlingGuess>,
) -> Result<(LowerGuess, UpperSide), OutOfMemory>
    requires zero { IsZeroSet base.now.question.now base.now.zero.now }
    requires sound { AreSoundWords base.now.question.now words }
    requires base { base.now.values.now ≡ values_of words }
    requires parts { AreUpperParts base.now.question.now base.now.zero.now swapped_values.items kept }
    ensures lower { IfOk result (λ sides. IsLowerSide base.now.question.now base.now.zero.now base.now.values.now
        sides.0) }
    ensures upper { IfOk result (λ sides. IsUpperSide base.now.question.now base.now.zero.now
        (slice_index base.now.values.now) (slice_index swapped_values.items) kept sides.1) }
{
    if parallel.workers == 1 {
        let lower = lower_side(alloc, base, words)?;
        let upper = upper_side(parallel, alloc, base, swapped_values, kept)?;
        return Ok((lower, upper));
    }
    let others = ParallelSweep {
        rt: parallel.rt,
        workers: parallel.workers - 1,
    };
    let lower = LowerJob { alloc, base, words };
    let upper = UpperJob {
        parallel: &others,
        alloc,
        base,
        swapped_values,
        kept,
    };
    let (lower, upper) = run_both(parallel.rt, lower, upper);
    let lower = lower?;
    let upper = upper?;
    Ok((lower, upper))
}

/// A job is what one thread makes.
trait Job {
    type Made;

    ghost can_run: { Self → Type 0 };

    ghost gives: { Self → Self.Made → Type 0 };

    fn run(self) -> Self::Made
        requires { can_run self }
        ensures { gives self result };
}

/// Runs two jobs at once: the first runs in another thread, if one can be made.
fn run_both<R: Threads, S: Job<Made = A> + Send + Drop, T: Job<Made = B> + Drop, A: Send, B>(
    rt: &R,
    one: S,
    other: T,
) -> (A, B)
    requires { S.can_run one × T.can_run other }
    ensures { S.gives one result.0 × T.gives other result.1 }
{
    join(
        rt,
        move || -> A
            requires { S.can_run one }
            ensures { S.gives one result }
        { one.run() },
        move || -> B
            requires { T.can_run other }
            ensures { T.gives other result }
        { other.run() },
    )
}

/// This job makes the lower side.
#[derive(Drop)]
struct LowerJob<'a> {
    alloc: Global,
    base: &'a Base<'a>,
    words: Words,
}

impl Job for LowerJob<'_> {
    type Made = Result<LowerGuess, OutOfMemory>;

    ghost can_run = { λ j. IsZeroSet j.base.now.question.now j.base.now.zero.now
        × AreSoundWords j.base.now.question.now j.words × (j.base.now.values.now ≡ values_of j.words) };

    ghost gives = { λ j made. IfOk made (IsLowerSide j.base.now.question.now j.base.now.zero.now
        j.base.now.values.now) };

    fn run(self) -> Result<LowerGuess, OutOfMemory> {
        let LowerJob { alloc, base, words } = self;
        lower_side(alloc, base, words)
    }
}

/// This job makes the upper side.
#[derive(Drop)]
struct UpperJob<'a, R: Threads + Sync> {
    parallel: &'a ParallelSweep<'a, R>,
    alloc: Global,
    base: &'a Base<'a>,
    swapped_values: Vec<u64>,
    kept: Option<SettlingGuess>,
}

impl<R: Threads + Sync> Job for UpperJob<'_, R> {
    type Made = Result<UpperSide, OutOfMemory>;

    // The workers share what starts threads.
    ghost can_run = { λ j. IsSync R.row × IsZeroSet j.base.now.question.now j.base.now.zero.now
        × AreUpperParts j.base.now.question.now j.base.now.zero.now j.swapped_values.items j.kept };

    ghost gives = { λ j made. IfOk made (IsUpperSide j.base.now.question.now j.base.now.zero.now
        (slice_index j.base.now.values.now) (slice_index j.swapped_values.items) j.kept) };

    fn run(self) -> Result<UpperSide, OutOfMemory> {
        let UpperJob {
            parallel,
            alloc,
            base,
            swapped_values,
            kept,
        } = self;
        upper_side(parallel, alloc, base, swapped_values, kept)
    }
}
