//! These games are drawn by a seed.

use crate::models::{OF_THREE_STATES, USAGE};
use crate::tables::all_write;
use crate::{Case, Command, ends, words};
use game_outside::{Gate, HoldGate, OpenGate, SteadyShelf};
use sample_games::expectations::{holds, same};
use std::alloc::Global;
use std::sync::atomic::{AtomicU32, Ordering};
use std::test::Fail;
use std::thread::Threads;
use stogame_app::Status;

// Runs these words, which name no file, and says how the run ends and what it writes.
fn ends_with<R: Threads + Sync, G: Gate + Sync>(
    rt: &R,
    alloc: Global,
    given: &[&str],
    gate: &G,
) -> Result<(Status, Vec<u8>), Fail> {
    let words = words(alloc, given)?;
    let mut shelf = SteadyShelf::new(Vec::new(alloc));
    ends(rt, alloc, &words, &mut shelf, gate)
}

const OF_SEED_1: &[Case<'static>] = &[
    Case {
        command: Command::Words(&["make", "1", "3"]),
        text: OF_THREE_STATES,
        status: Status::Fine,
    },
    Case {
        command: Command::Words(&["make", "--workers=1", "--rounds", "50", "--", "+1", "003"]),
        text: OF_THREE_STATES,
        status: Status::Fine,
    },
];

#[test]
fn a_game_of_three_states_is_settled(rt: HostRuntime) -> Result<(), Fail> {
    all_write(&rt, rt.alloc(), OF_SEED_1)
}

const TOO_FEW_ROUNDS: &[Case<'static>] = &[Case {
    command: Command::Words(&["make", "1", "3", "--rounds", "0"]),
    text: "model seed 1 states 3 zero 1 unsettled\n",
    status: Status::SomeUndecided,
}];

#[test]
fn too_few_rounds_leave_a_game_unsettled(rt: HostRuntime) -> Result<(), Fail> {
    all_write(&rt, rt.alloc(), TOO_FEW_ROUNDS)
}

// Returns what this many workers write of a large game that is settled.
fn written_by<R: Threads + Sync>(rt: &R, alloc: Global, workers: &str) -> Result<Vec<u8>, Fail> {
    let given = ["make", "7", "20000", "--workers", workers];
    let (ended, written) = ends_with(rt, alloc, &given, &OpenGate {})?;
    same(workers, ended, Status::Fine)?;
    let front = b"model seed 7 states 20000 zero ";
    holds(
        format_args!("{workers} workers settle it"),
        written.starts_with(front) && written.ends_with(b" settled\n"),
    )?;
    Ok(written)
}

fn write_the_same<R: Threads + Sync>(rt: &R, alloc: Global) -> Result<(), Fail> {
    let one = written_by(rt, alloc, "1")?;
    let eight = written_by(rt, alloc, "8")?;
    same("eight workers", eight.as_slice(), one.as_slice())
}

#[test]
fn one_and_eight_workers_write_the_same_line(rt: HostRuntime) -> Result<(), Fail> {
    write_the_same(&rt, rt.alloc())
}

// Two workers of a game that a seed draws are at the gate at once.
fn two_at_once<R: Threads + Sync>(rt: &R, alloc: Global) -> Result<(), Fail> {
    let gate = HoldGate::new();
    let given = ["make", "7", "200", "--workers", "2"];
    let (ended, _written) = ends_with(rt, alloc, &given, &gate)?;
    same("two workers", ended, Status::Fine)?;
    holds("the workers run at once", !gate.gave_up())
}

#[test]
fn two_workers_of_a_drawn_game_run_at_once(rt: HostRuntime) -> Result<(), Fail> {
    two_at_once(&rt, rt.alloc())
}

// The gate counts who passes it.
#[derive(Drop)]
struct CountGate {
    passed: AtomicU32,
}

impl Gate for CountGate {
    fn arrive(&self, _worker: u32, _state: u32) {
        let _before = self.passed.fetch_add(1, Ordering::SeqCst);
    }
}

// The game is not settled, and the gate is passed so often.
fn passes<R: Threads + Sync>(rt: &R, alloc: Global, rounds: &str, times: u32) -> Result<(), Fail> {
    let gate = CountGate {
        passed: AtomicU32::new(0),
    };
    let given = ["make", "7", "200", "--rounds", rounds, "--workers", "1"];
    let (ended, written) = ends_with(rt, alloc, &given, &gate)?;
    same(rounds, ended, Status::SomeUndecided)?;
    holds("it is unsettled", written.ends_with(b" unsettled\n"))?;
    same(rounds, gate.passed.load(Ordering::SeqCst), times)
}

// The first round of each table has every state, and one round does not settle this game of 200 states.
#[test]
fn each_asked_round_of_a_drawn_game_is_made(rt: HostRuntime) -> Result<(), Fail> {
    passes(&rt, rt.alloc(), "0", 0)?;
    passes(&rt, rt.alloc(), "1", 400)
}

const OTHER_WORDS: &[Case<'static>] = &[
    Case {
        command: Command::Words(&["make"]),
        text: USAGE,
        status: Status::Usage,
    },
    Case {
        command: Command::Words(&["make", "1"]),
        text: USAGE,
        status: Status::Usage,
    },
    Case {
        command: Command::Words(&["make", "1", "3", "3"]),
        text: USAGE,
        status: Status::Usage,
    },
    Case {
        command: Command::Words(&["make", "0", "3"]),
        text: USAGE,
        status: Status::Usage,
    },
    Case {
        command: Command::Words(&["make", "2147483647", "3"]),
        text: USAGE,
        status: Status::Usage,
    },
    Case {
        command: Command::Words(&["make", "1", "2"]),
        text: USAGE,
        status: Status::Usage,
    },
    Case {
        command: Command::Words(&["make", "1", "1000001"]),
        text: USAGE,
        status: Status::Usage,
    },
    Case {
        command: Command::Words(&["make", "1", "three"]),
        text: USAGE,
        status: Status::Usage,
    },
    Case {
        command: Command::Words(&["make", "1", "3", "--plan"]),
        text: USAGE,
        status: Status::Usage,
    },
    Case {
        command: Command::Words(&["make", "1", "3", "--own", "o"]),
        text: USAGE,
        status: Status::Usage,
    },
    Case {
        command: Command::Words(&["make", "1", "3", "--rounds", "1000001"]),
        text: USAGE,
        status: Status::Usage,
    },
    Case {
        command: Command::Words(&["make", "1", "3", "--workers", "1", "--workers", "2"]),
        text: USAGE,
        status: Status::Usage,
    },
];

#[test]
fn other_words_give_the_usage_line(rt: HostRuntime) -> Result<(), Fail> {
    all_write(&rt, rt.alloc(), OTHER_WORDS)
}
