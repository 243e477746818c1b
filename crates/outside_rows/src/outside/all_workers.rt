//! The first round or step of each run has as many workers as are asked for.

use game_outside::{Gate, SteadyShelf};
use sample_games::expectations::{holds, same};
use std::alloc::Global;
use std::sync::atomic::{AtomicU32, Ordering};
use std::test::Fail;
use std::thread::Threads;
use stogame_app::Status;
use worked_rows::{MOST_OF_AGREEMENT, Row, ends, runs, words};

// The gate counts how often the last worker passes it, and how often later workers do.
#[derive(Drop)]
struct LastGate {
    last: u32,
    passed: AtomicU32,
    behind: AtomicU32,
}

impl LastGate {
    fn before(workers: u32) -> LastGate {
        LastGate {
            last: workers.saturating_sub(1),
            passed: AtomicU32::new(0),
            behind: AtomicU32::new(0),
        }
    }

    // Returns how often the last of the workers passed the gate, and how often later ones did.
    fn counts(&self) -> (u32, u32) {
        (
            self.passed.load(Ordering::SeqCst),
            self.behind.load(Ordering::SeqCst),
        )
    }

    // Returns whether the last of the workers passed the gate, and no later one did.
    fn has_all(&self) -> bool {
        let (passed, behind) = self.counts();
        passed > 0 && behind == 0
    }
}

impl Gate for LastGate {
    fn arrive(&self, worker: u32, _state: u32) {
        if worker == self.last {
            let _before = self.passed.fetch_add(1, Ordering::SeqCst);
        }
        if worker > self.last {
            let _before = self.behind.fetch_add(1, Ordering::SeqCst);
        }
    }
}

// This many workers of a check pass the gate.
fn check_has_all<R: Threads + Sync>(
    rt: &R,
    alloc: Global,
    asked: &str,
    workers: u32,
) -> Result<(), Fail> {
    let gate = LastGate::before(workers);
    let numbers = ["--rounds", "1", "--workers", asked];
    let row = MOST_OF_AGREEMENT.with_numbers(&numbers);
    let (ended, _written) = runs(rt, alloc, row, &gate)?;
    same(asked, ended, Status::Fine)?;
    holds(format_args!("all {asked} workers pass"), gate.has_all())
}

fn checks_have_all<R: Threads + Sync>(rt: &R, alloc: Global) -> Result<(), Fail> {
    for (asked, workers) in [("1", 1), ("3", 3), ("4", 4), ("5", 5), ("8", 8)] {
        check_has_all(rt, alloc, asked, workers)?;
    }
    Ok(())
}

// The first round has every state. The twelve states are shared by their edges, and each of this many workers has at
// least one.
#[test]
fn all_workers_of_a_check_pass_the_gate(rt: HostRuntime) -> Result<(), Fail> {
    checks_have_all(&rt, rt.alloc())
}

// This many workers of a drawn game pass the gate.
fn game_has_all<R: Threads + Sync>(
    rt: &R,
    alloc: Global,
    asked: &str,
    workers: u32,
) -> Result<(), Fail> {
    let gate = LastGate::before(workers);
    let given = ["make", "7", "2000", "--rounds", "1", "--workers", asked];
    let words = words(alloc, &given)?;
    let mut shelf = SteadyShelf::new(Vec::new(alloc));
    let (ended, _written) = ends(rt, alloc, &words, &mut shelf, &gate)?;
    same(asked, ended, Status::SomeUndecided)?;
    holds(format_args!("all {asked} workers pass"), gate.has_all())
}

fn games_have_all<R: Threads + Sync>(rt: &R, alloc: Global) -> Result<(), Fail> {
    for (asked, workers) in [("1", 1), ("5", 5), ("8", 8), ("64", 64)] {
        game_has_all(rt, alloc, asked, workers)?;
    }
    Ok(())
}

#[test]
fn all_workers_of_a_drawn_game_pass_the_gate(rt: HostRuntime) -> Result<(), Fail> {
    games_have_all(&rt, rt.alloc())
}

/// Fifteen states follow each other, and the last one is the goal.
const CHAIN: Row<'static> = Row {
    tra: "15 15 15\n0 0 1 1\n1 0 2 1\n2 0 3 1\n3 0 4 1\n4 0 5 1\n5 0 6 1\n6 0 7 1\n7 0 8 1\n8 0 9 1\n9 0 10 1\n10 0 11 1\n11 0 12 1\n12 0 13 1\n13 0 14 1\n14 0 14 1\n",
    lab: "0=\"init\" 1=\"goal\"\n0: 0\n14: 1\n",
    own: None,
    formula: "",
    numbers: &[],
};

// Asks the chain a formula with these numbers.
fn chain<'a>(formula: &'a str, numbers: &'a [&'a str]) -> Row<'a> {
    Row {
        formula,
        numbers,
        ..CHAIN
    }
}

/// Each row has a number of workers who share the chain, as a word and as a number, and how many states the last worker
/// has.
const TEAMS: [(&str, u32, u32); 4] = [("1", 1, 15), ("3", 3, 5), ("5", 5, 3), ("8", 8, 1)];

/// Each formula is given with the number of times that its runs update all states if each has at most one round. A
/// round updates two tables. No step is made with `F<=0`, so only the other run is counted. The last three leave states
/// undecided inside, so the outermost formula poses two questions.
const RUNS: [(&str, u32); 13] = [
    ("Pmax=? [ F \"goal\" ]", 2),
    ("Pmax=? [ F<=1 \"goal\" ]", 1),
    ("Pmax=? [ X \"goal\" ]", 1),
    ("Pmax=? [ F P>=1 [ F<=0 \"goal\" ] ]", 2),
    ("Pmax=? [ G P<1 [ F<=0 \"goal\" ] ]", 2),
    ("Pmax=? [ F<=1 P>=1 [ F<=0 \"goal\" ] ]", 1),
    ("Pmax=? [ X P>=1 [ F<=0 \"goal\" ] ]", 1),
    ("Pmax=? [ F<=0 P>=1 [ F \"goal\" ] ]", 2),
    ("Pmax=? [ F<=0 P>=1 [ F<=1 \"goal\" ] ]", 1),
    ("Pmax=? [ F<=0 P>=1 [ X \"goal\" ] ]", 1),
    ("Pmax=? [ F P>=1 [ F \"goal\" ] ]", 2 + 4),
    ("Pmax=? [ F<=1 P>=1 [ F \"goal\" ] ]", 2 + 2),
    ("Pmax=? [ X P>=1 [ F \"goal\" ] ]", 2 + 2),
];

// The last of this many workers passes the gate before each of its states as often as all states are updated, and no
// later worker passes it.
fn all_pass<R: Threads + Sync>(
    rt: &R,
    alloc: Global,
    team: (&str, u32, u32),
    run: (&str, u32),
) -> Result<(), Fail> {
    let (asked, workers, states) = team;
    let (formula, times) = run;
    let gate = LastGate::before(workers);
    let numbers = ["--rounds", "1", "--workers", asked];
    let (ended, _written) = runs(rt, alloc, chain(formula, &numbers), &gate)?;
    same(
        format_args!("{asked} workers, {formula}"),
        (ended, gate.counts()),
        (Status::Fine, (states.wrapping_mul(times), 0)),
    )
}

fn all_runs_pass<R: Threads + Sync>(rt: &R, alloc: Global) -> Result<(), Fail> {
    for team in TEAMS {
        for run in RUNS {
            all_pass(rt, alloc, team, run)?;
        }
    }
    Ok(())
}

#[test]
fn all_workers_of_each_run_pass_the_gate(rt: HostRuntime) -> Result<(), Fail> {
    all_runs_pass(&rt, rt.alloc())
}
