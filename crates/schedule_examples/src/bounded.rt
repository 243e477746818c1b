//! These are worked sweeps.

ghost use Rattle.std.specs.Prelude.{◌≤◌};
ghost use Rattle.bounded_rounds.specs.Limits.{most_steps};
ghost use Rattle.round_workers.specs.Share.{most_workers};

use bounded_rounds::{MOST_STEPS, Sweep, bounded, bounded_values};
use game_model::{Question, Side, UNIT};
use game_outside::{Gate, HoldGate, OpenGate};
use sample_games::expectations::{holds, same};
use sample_games::{chain, coin_loop, question_of};
use std::alloc::Global;
use std::sync::atomic::{AtomicU32, Ordering};
use std::test::Fail;
use std::thread::Threads;

#[test]
fn the_coin_loop_step_by_step(rt: HostRuntime) -> Result<(), Fail> {
    let alloc = rt.alloc();
    let game = coin_loop(alloc)?;
    check_coin_loop(&rt, alloc, &question_of(alloc, &game, Side::Max, 1)?)
}

/// The coin loop, whose goal is state 1, has these bounds after this many steps.
fn check_coin_loop<R: Threads + Sync>(
    rt: &R,
    alloc: Global,
    question: &Question<'_>,
) -> Result<(), Fail> {
    for (steps, lower, upper) in &[
        (0, 0, 0),
        (1, 250_000_000_000_000, 250_000_000_000_000),
        (2, 375_000_000_000_000, 375_000_000_000_000),
        (3, 437_500_000_000_000, 437_500_000_000_000),
        // Both tables stop changing long before.
        (MOST_STEPS, 499_999_999_999_999, 500_000_000_000_000),
    ] {
        check_steps(rt, alloc, question, *steps, (*lower, *upper))?;
    }
    Ok(())
}

/// State 0 of the coin loop has these bounds after this many steps, with any number of workers.
fn check_steps<R: Threads + Sync>(
    rt: &R,
    alloc: Global,
    question: &Question<'_>,
    steps: u32,
    wanted: (u64, u64),
) -> Result<(), Fail>
    requires { steps ≤ most_steps }
{
    for workers in &[1, 2, 3, 64] {
        check_bounds(rt, alloc, question, steps, *workers, wanted)?;
    }
    Ok(())
}

/// State 0 of the coin loop has these bounds with this many workers.
fn check_bounds<R: Threads + Sync>(
    rt: &R,
    alloc: Global,
    question: &Question<'_>,
    steps: u32,
    workers: u32,
    wanted: (u64, u64),
) -> Result<(), Fail>
    requires steps { steps ≤ most_steps }
    requires workers { (1 ≤ workers) × (workers ≤ most_workers) }
{
    let found = bounded_values(rt, alloc, question, steps, workers, &OpenGate {})?;
    same(
        format_args!("{steps} steps, {workers} workers"),
        (found.lower.as_slice(), found.upper.as_slice()),
        (
            [wanted.0, UNIT, 0].as_slice(),
            [wanted.1, UNIT, 0].as_slice(),
        ),
    )
}

#[test]
fn two_workers_run_at_once(rt: HostRuntime) -> Result<(), Fail> {
    let gate = HoldGate::new();
    let found = two_steps(&rt, rt.alloc(), &gate)?;
    same(
        "lower",
        found.lower.as_slice(),
        [375_000_000_000_000, UNIT, 0].as_slice(),
    )?;
    holds("the workers ran at once", !gate.gave_up())
}

/// Makes two steps of the coin loop by two workers.
fn two_steps<R: Threads + Sync>(rt: &R, alloc: Global, gate: &HoldGate) -> Result<Sweep, Fail> {
    let game = coin_loop(alloc)?;
    let question = question_of(alloc, &game, Side::Max, 1)?;
    Ok(bounded(rt, alloc, &question, &[0, UNIT, 0], 2, 2, gate)?)
}

// The gate counts how often each of two workers passes it.
#[derive(Drop)]
struct PairGate {
    first: AtomicU32,
    second: AtomicU32,
}

impl Gate for PairGate {
    fn arrive(&self, worker: u32, _state: u32) {
        let passed = if worker == 0 {
            &self.first
        } else {
            &self.second
        };
        let _before = passed.fetch_add(1, Ordering::SeqCst);
    }
}

/// With this many edges one more worker is worth its thread. A chain has one edge for each state.
const MANY: u32 = 50_000;

// Makes three steps of two workers over a chain of many states.
fn three_steps<R: Threads + Sync>(rt: &R, alloc: Global, gate: &PairGate) -> Result<Sweep, Fail> {
    let game = chain(alloc, MANY)?;
    let question = question_of(alloc, &game, Side::Max, MANY - 1)?;
    Ok(bounded_values(rt, alloc, &question, 3, 2, gate)?)
}

#[test]
fn later_steps_over_many_states_have_all_workers(rt: HostRuntime) -> Result<(), Fail> {
    let gate = PairGate {
        first: AtomicU32::new(0),
        second: AtomicU32::new(0),
    };
    let _sweep = three_steps(&rt, rt.alloc(), &gate)?;
    let passed = (
        gate.first.load(Ordering::SeqCst),
        gate.second.load(Ordering::SeqCst),
    );
    same("first and second", passed, (3 * MANY / 2, 3 * MANY / 2))
}
