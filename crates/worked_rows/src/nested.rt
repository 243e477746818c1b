//! These formulas have others inside.

use crate::checks::comes_to;
use crate::tables::{Answer, all_write, answers_write};
use crate::{Case, Command, MOST_OF_COIN_LOOP, Row, runs};
use game_outside::{Gate, HoldGate, OpenGate};
use sample_games::expectations::same;
use std::alloc::Global;
use std::test::Fail;
use std::thread::Threads;
use stogame_app::Status;

const SETTLED: &[Answer<'static>] = &[
    // The probability is at least one half from states 0 and 1, and is 0 from state 2.
    (
        "P>=1 [ F P>=0.5 [ F \"goal\" ] ]",
        "1 undecided 0\nstate 0 lower 1.000000000000000 upper 1.000000000000000 rounds 1 True",
        Status::Fine,
    ),
    (
        "P>=0.25 [ X P>=1 [ F \"goal\" ] ]",
        "1 undecided 0\nstate 0 lower 0.250000000000000 upper 0.250000000000000 steps 1 True",
        Status::Fine,
    ),
    (
        "Pmax=? [ F<=2 !P>0 [ F \"goal\" ] ]",
        "1 undecided 0\nstate 0 lower 0.375000000000000 upper 0.375000000000000 steps 2 Bracket",
        Status::Fine,
    ),
    (
        "Pmax=? [ P>0 [ F \"goal\" ] U<=2 \"goal\" ]",
        "1 undecided 0\nstate 0 lower 0.375000000000000 upper 0.375000000000000 steps 2 Bracket",
        Status::Fine,
    ),
    (
        "Pmax=? [ X P>=0.375 [ F<=2 \"goal\" ] ]",
        "1 undecided 0\nstate 0 lower 0.750000000000000 upper 0.750000000000000 steps 1 Bracket",
        Status::Fine,
    ),
    (
        "Pmax=? [ X P>=0.75 [ X P>0 [ F \"goal\" ] ] ]",
        "2 undecided 0\nstate 0 lower 0.750000000000000 upper 0.750000000000000 steps 1 Bracket",
        Status::Fine,
    ),
];

#[test]
fn formulas_inside_hold_where_they_are_settled(rt: HostRuntime) -> Result<(), Fail> {
    let command = Command::Check(MOST_OF_COIN_LOOP);
    answers_write(&rt, rt.alloc(), command, "inner ", SETTLED)
}

// The value at state 0 is one half, which four rounds do not show.
const UNDECIDED: &[Answer<'static>] = &[
    (
        "P>=0.4 [ F P>0.5 [ F \"goal\" ] ]",
        "lower 0.468750000000004 upper 1.000000000000000 rounds 4 True",
        Status::Fine,
    ),
    (
        "P>=0.9 [ F P>=0.5 [ F \"goal\" ] ]",
        "lower 0.250000000000004 upper 1.000000000000000 rounds 1 Undecided",
        Status::SomeUndecided,
    ),
];

const OF_FOUR_ROUNDS: Row<'static> = Row {
    numbers: &["--workers", "1", "--rounds", "4"],
    ..MOST_OF_COIN_LOOP
};

#[test]
fn what_is_undecided_inside_is_neither_true_nor_false(rt: HostRuntime) -> Result<(), Fail> {
    let command = Command::Check(OF_FOUR_ROUNDS);
    let front = "inner 1 undecided 1\nstate 0 ";
    answers_write(&rt, rt.alloc(), command, front, UNDECIDED)
}

const INSIDE: Row<'static> = Row {
    formula: "P>=1 [ F P>=0.5 [ F \"goal\" ] ]",
    ..MOST_OF_COIN_LOOP
};

const WRONG_KIND: &[Case<'static>] = &[
    Case {
        command: Command::Check(Row {
            numbers: &["--plan"],
            ..INSIDE
        }),
        text: "refused question line 0 WrongKind\n",
        status: Status::ModelRefused,
    },
    Case {
        command: Command::Check(Row {
            numbers: &["--traps"],
            ..INSIDE
        }),
        text: "refused question line 0 WrongKind\n",
        status: Status::ModelRefused,
    },
    Case {
        command: Command::Audit(INSIDE, ""),
        text: "refused question line 0 WrongKind\n",
        status: Status::ModelRefused,
    },
    Case {
        command: Command::Sure(INSIDE),
        text: "refused question line 0 WrongKind\n",
        status: Status::ModelRefused,
    },
];

#[test]
fn certificates_and_traps_are_of_formulas_with_none_inside(rt: HostRuntime) -> Result<(), Fail> {
    all_write(&rt, rt.alloc(), WRONG_KIND)
}

// Names are looked up in the order of the text, before anything else is said of the formula.
const UNKNOWN_NAMES: &[Answer<'static>] = &[
    (
        "P>=1 [ F P>=0.5 [ F \"one\" ] & \"two\" ]",
        "UnknownLabel one",
        Status::ModelRefused,
    ),
    (
        "P>=1 [ F <<p1>> P>=0.5 [ F \"goal\" ] ]",
        "UnknownPlayer p1",
        Status::ModelRefused,
    ),
];

#[test]
fn names_inside_are_looked_up(rt: HostRuntime) -> Result<(), Fail> {
    let command = Command::Check(Row {
        numbers: &["--plan"],
        ..INSIDE
    });
    let front = "refused question line 0 ";
    answers_write(&rt, rt.alloc(), command, front, UNKNOWN_NAMES)
}

// Runs the coin loop with a formula and this many workers, and says how it ends and what it writes.
fn nested_by<R: Threads + Sync, G: Gate + Sync>(
    rt: &R,
    alloc: Global,
    formula: &str,
    workers: &str,
    gate: &G,
) -> Result<(Status, Vec<u8>), Fail> {
    let numbers = ["--workers", workers];
    let row = MOST_OF_COIN_LOOP.asked(formula).with_numbers(&numbers);
    runs(rt, alloc, row, gate)
}

// This many workers write this.
fn nested_writes<R: Threads + Sync>(rt: &R, alloc: Global, workers: &str) -> Result<(), Fail> {
    let formula = "Pmax=? [ F<=2 P>=1 [ F \"goal\" ] ]";
    let text =
        "inner 1 undecided 0\nstate 0 lower 0.375000000000000 upper 0.375000000000000 steps 2 Bracket\n";
    let (status, written) = nested_by(rt, alloc, formula, workers, &OpenGate {})?;
    comes_to(workers, status, &written, Status::Fine, text)
}

#[test]
fn workers_of_every_number_write_the_same(rt: HostRuntime) -> Result<(), Fail> {
    nested_writes(&rt, rt.alloc(), "1")?;
    nested_writes(&rt, rt.alloc(), "2")?;
    nested_writes(&rt, rt.alloc(), "7")
}

/// Only one run of each formula passes the gate, because no step is made with `F<=0`. It is the run of the outermost
/// formula in the first four, and that of the formula inside in the others.
const OF_ONE_RUN: [&str; 7] = [
    "Pmax=? [ F P>=1 [ F<=0 \"goal\" ] ]",
    "Pmax=? [ G P<1 [ F<=0 \"goal\" ] ]",
    "Pmax=? [ F<=2 P>=1 [ F<=0 \"goal\" ] ]",
    "Pmax=? [ X P>=1 [ F<=0 \"goal\" ] ]",
    "Pmax=? [ F<=0 P>=1 [ F \"goal\" ] ]",
    "Pmax=? [ F<=0 P>=1 [ F<=2 \"goal\" ] ]",
    "Pmax=? [ F<=0 P>=1 [ X \"goal\" ] ]",
];

// Two workers of the formula's runs are at the gate at once.
fn two_at_once<R: Threads + Sync>(rt: &R, alloc: Global, formula: &str) -> Result<(), Fail> {
    let gate = HoldGate::new();
    let (status, _written) = nested_by(rt, alloc, formula, "2", &gate)?;
    same(formula, (status, gate.gave_up()), (Status::Fine, false))
}

#[test]
fn two_workers_of_each_run_are_at_once(rt: HostRuntime) -> Result<(), Fail> {
    for formula in OF_ONE_RUN {
        two_at_once(&rt, rt.alloc(), formula)?;
    }
    Ok(())
}
