//! A worker that comes late reads what another has just raised.

use crate::outside::workers::agrees;
use game_outside::LateGate;
use sample_games::expectations::{holds, same};
use std::alloc::Global;
use std::test::Fail;
use std::thread::Threads;
use stogame_app::Status;
use worked_rows::{MOST_OF_AGREEMENT, Row, runs};

// Of two workers, the first has the states 0 to 3 of the agreement protocol, and the second has the eight others.
const OTHERS: u32 = 8;

fn late_agrees<R: Threads + Sync>(rt: &R, alloc: Global) -> Result<(), Fail> {
    let gate = LateGate::new(0, OTHERS);
    agrees(rt, alloc, "2", &gate)?;
    holds("the second worker finishes its states", !gate.gave_up())
}

#[test]
fn a_late_worker_makes_no_difference_to_the_bounds(rt: HostRuntime) -> Result<(), Fail> {
    late_agrees(&rt, rt.alloc())
}

// Some line begins with this text.
fn has_line(written: &[u8], front: &str) -> Result<(), Fail> {
    let mut lines = written.split(|byte| *byte == b'\n');
    let found = lines.any(|line| line.starts_with(front.as_bytes()));
    holds(format_args!("a line begins with {front}"), found)
}

const ONE_ROUND: Row<'static> = Row {
    numbers: &["--rounds", "1", "--workers", "2", "--plan"],
    ..MOST_OF_AGREEMENT
};

fn late_raises<R: Threads + Sync>(rt: &R, alloc: Global) -> Result<(), Fail> {
    let gate = LateGate::new(0, OTHERS);
    let (ended, written) = runs(rt, alloc, ONE_ROUND, &gate)?;
    holds("the second worker finishes its states", !gate.gave_up())?;
    same("one round", ended, Status::Fine)?;
    has_line(&written, "1 0.699999999999999 ")?;
    has_line(&written, "3 0.500000000000002 ")
}

// If the workers read copies of the words, or if one rising sweep updated all states, the round would leave both values
// at 0.
#[test]
fn one_round_raises_what_another_worker_has_raised(rt: HostRuntime) -> Result<(), Fail> {
    late_raises(&rt, rt.alloc())
}
