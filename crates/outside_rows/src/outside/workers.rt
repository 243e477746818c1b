//! These tests are of rounds and workers.

use game_outside::{Gate, HoldGate, OpenGate};
use sample_games::expectations::{holds, same};
use std::alloc::Global;
use std::sync::atomic::{AtomicU32, Ordering};
use std::test::Fail;
use std::thread::Threads;
use stogame_app::Status;
use worked_rows::{COIN_LOOP_REPORT, MOST_OF_AGREEMENT, MOST_OF_COIN_LOOP, Row, runs, writes};

/// The line of the agreement protocol begins with this text, before the number of rounds.
const AGREED: &str = "state 0 lower 0.839999999999999 upper 0.840000000000000 rounds ";

fn agreement<'a>(numbers: &'a [&'a str]) -> Row<'a> {
    Row {
        numbers,
        ..MOST_OF_AGREEMENT
    }
}

/// The bounds of the agreement protocol are those of one worker, whatever the number of rounds, and there is one line.
pub(crate) fn agrees<R: Threads + Sync, G: Gate + Sync>(
    rt: &R,
    alloc: Global,
    workers: &str,
    gate: &G,
) -> Result<(), Fail> {
    let numbers = ["--workers", workers];
    let (ended, written) = runs(rt, alloc, agreement(&numbers), gate)?;
    let bounds = written.starts_with(AGREED.as_bytes()) && written.ends_with(b" Bracket\n");
    let lines = written.iter().filter(|byte| **byte == b'\n').count();
    same(workers, (ended, bounds, lines), (Status::Fine, true, 1))
}

fn all_agree<R: Threads + Sync>(rt: &R, alloc: Global) -> Result<(), Fail> {
    for workers in ["1", "2", "4", "8", "64"] {
        agrees(rt, alloc, workers, &OpenGate {})?;
    }
    Ok(())
}

#[test]
fn all_numbers_of_workers_give_the_same_bounds(rt: HostRuntime) -> Result<(), Fail> {
    all_agree(&rt, rt.alloc())
}

// Two workers are at the gate at once.
fn two_at_once<R: Threads + Sync>(rt: &R, alloc: Global) -> Result<(), Fail> {
    let gate = HoldGate::new();
    agrees(rt, alloc, "2", &gate)?;
    holds("the workers run at once", !gate.gave_up())
}

#[test]
fn two_workers_run_at_once(rt: HostRuntime) -> Result<(), Fail> {
    two_at_once(&rt, rt.alloc())
}

// Three workers share three states. The gate counts who passes it before each state, and who passes it before a state
// of another worker.
#[derive(Drop)]
struct CountGate {
    passed: [AtomicU32; 3],
    strayed: AtomicU32,
}

impl CountGate {
    fn new() -> CountGate {
        CountGate {
            passed: [AtomicU32::new(0), AtomicU32::new(0), AtomicU32::new(0)],
            strayed: AtomicU32::new(0),
        }
    }

    // Returns how often the gate was passed before each state.
    fn counts(&self) -> [u32; 3] {
        let [first, second, third] = &self.passed;
        [
            first.load(Ordering::SeqCst),
            second.load(Ordering::SeqCst),
            third.load(Ordering::SeqCst),
        ]
    }

    // Returns how often a worker passed the gate before a state of another worker.
    fn strays(&self) -> u32 {
        self.strayed.load(Ordering::SeqCst)
    }
}

impl Gate for CountGate {
    fn arrive(&self, worker: u32, state: u32) {
        if let Some(passed) = self.passed.get(state as usize) {
            let _before = passed.fetch_add(1, Ordering::SeqCst);
        }
        if worker != state {
            let _more = self.strayed.fetch_add(1, Ordering::SeqCst);
        }
    }
}

// Asks the coin loop with these numbers.
fn coin_loop<'a>(numbers: &'a [&'a str]) -> Row<'a> {
    Row {
        numbers,
        ..MOST_OF_COIN_LOOP
    }
}

// Asks the coin loop another formula with these numbers.
fn coin_loop_with<'a>(formula: &'a str, numbers: &'a [&'a str]) -> Row<'a> {
    Row {
        formula,
        ..coin_loop(numbers)
    }
}

// Counts how often the gate is passed before each state of the coin loop, and how often before a state of another
// worker.
fn passes<R: Threads + Sync>(
    rt: &R,
    alloc: Global,
    formula: &str,
    rounds: &str,
) -> Result<([u32; 3], u32), Fail> {
    let gate = CountGate::new();
    let numbers = ["--rounds", rounds, "--workers", "3"];
    let row = coin_loop_with(formula, &numbers);
    let (_ended, _written) = runs(rt, alloc, row, &gate)?;
    Ok((gate.counts(), gate.strays()))
}

/// Each row has a formula, the most rounds, and how often the gate is passed before each state. A round updates two
/// tables.
const PASSES: &[(&str, &str, u32)] = &[
    ("Pmax=? [ F \"goal\" ]", "0", 0),
    ("Pmax=? [ F \"goal\" ]", "1", 2),
    ("Pmax=? [ F \"goal\" ]", "5", 10),
    ("Pmax=? [ F \"goal\" ]", "10000", 100),
    ("Pmax=? [ F<=0 \"goal\" ]", "1", 0),
    ("Pmax=? [ F<=1 \"goal\" ]", "1", 1),
    ("Pmax=? [ F<=2 \"goal\" ]", "1", 2),
    ("Pmax=? [ F<=5 \"goal\" ]", "1", 5),
    ("Pmax=? [ X \"goal\" ]", "1", 1),
];

fn all_pass<R: Threads + Sync>(rt: &R, alloc: Global) -> Result<(), Fail> {
    for (formula, rounds, times) in PASSES {
        let (counts, _strays) = passes(rt, alloc, formula, rounds)?;
        same(formula, counts, [*times; 3])?;
    }
    Ok(())
}

#[test]
fn workers_pass_the_gate_before_each_state_of_each_round_and_step(
    rt: HostRuntime,
) -> Result<(), Fail> {
    all_pass(&rt, rt.alloc())
}

const OF_ONE_STEP: [&str; 3] = [
    "Pmax=? [ F \"goal\" ]",
    "Pmax=? [ F<=1 \"goal\" ]",
    "Pmax=? [ X \"goal\" ]",
];

fn none_strays<R: Threads + Sync>(rt: &R, alloc: Global) -> Result<(), Fail> {
    for formula in OF_ONE_STEP {
        let (_counts, strays) = passes(rt, alloc, formula, "1")?;
        same(formula, strays, 0)?;
    }
    Ok(())
}

// Only the first round of a small model, and the first step, have all workers.
#[test]
fn each_worker_passes_the_gate_before_its_own_state(rt: HostRuntime) -> Result<(), Fail> {
    none_strays(&rt, rt.alloc())
}

/// Each formula is inside, and its run, of at most eight rounds, ends after this number of rounds. A run asks after 1,
/// 2, 4 and 8 rounds whether its threshold is settled at each state.
const SETTLED: [(&str, u32); 5] = [
    ("P>=0.25 [ F \"goal\" ]", 1),
    ("P>=0.3 [ F \"goal\" ]", 2),
    ("P>=0.4 [ F \"goal\" ]", 4),
    ("P>=0.5 [ F \"goal\" ]", 8),
    ("P>=0.6 [ F \"goal\" ]", 1),
];

// Counts the passes of a run inside, whose formula is within one of no steps. The initial state is the goal, where each
// of these formulas is settled at once.
fn inner_passes<R: Threads + Sync>(rt: &R, alloc: Global, inside: &str) -> Result<[u32; 3], Fail> {
    let formula = format!(in alloc; "Pmax=? [ F<=0 {inside} ]")?;
    let row = Row {
        formula: formula.as_str(),
        lab: "0=\"init\" 1=\"goal\"\n1: 0 1\n",
        numbers: &["--rounds", "8", "--workers", "1"],
        ..MOST_OF_COIN_LOOP
    };
    let gate = CountGate::new();
    let (_ended, _written) = runs(rt, alloc, row, &gate)?;
    Ok(gate.counts())
}

fn all_end_where_settled<R: Threads + Sync>(rt: &R, alloc: Global) -> Result<(), Fail> {
    for (inside, rounds) in SETTLED {
        same(inside, inner_passes(rt, alloc, inside)?, [2 * rounds; 3])?;
    }
    Ok(())
}

#[test]
fn runs_inside_end_where_their_threshold_is_settled_at_all_states(
    rt: HostRuntime,
) -> Result<(), Fail> {
    all_end_where_settled(&rt, rt.alloc())
}

// Each row has the most rounds, and what is reported.
const ROUNDS: [(&str, &str); 4] = [
    (
        "0",
        "state 0 lower 0.000000000000004 upper 0.562949953421312 rounds 0 Bracket\n",
    ),
    (
        "1",
        "state 0 lower 0.250000000000004 upper 0.531474976710656 rounds 1 Bracket\n",
    ),
    (
        "+002",
        "state 0 lower 0.375000000000004 upper 0.515737488355328 rounds 2 Bracket\n",
    ),
    ("1000000", COIN_LOOP_REPORT),
];

fn at_most_so_many<R: Threads + Sync>(rt: &R, alloc: Global) -> Result<(), Fail> {
    for (rounds, line) in ROUNDS {
        let numbers = ["--rounds", rounds, "--workers", "3"];
        writes(rt, alloc, coin_loop(&numbers), line, Status::Fine)?;
    }
    writes(rt, alloc, coin_loop(&[]), COIN_LOOP_REPORT, Status::Fine)
}

#[test]
fn at_most_the_asked_rounds_are_made(rt: HostRuntime) -> Result<(), Fail> {
    at_most_so_many(&rt, rt.alloc())
}
