//! These tests audit certificates.

use crate::printed_plans::MOST_OF_COIN_LOOP_WITH_PLAN;
use crate::tables::{
    Answer, Audited, all_write, answers_write, audit_refuses, printed_are_audited,
};
use crate::{
    Case, Command, FIRST_OF_TWO_PLAYERS, MOST_OF_COIN_LOOP, MOST_OF_LOOP_OR_COIN, Row, runs,
};
use game_outside::OpenGate;
use sample_games::expectations::same;
use std::alloc::Global;
use std::test::Fail;
use std::thread::Threads;
use stogame_app::Status;

const PRINTED: &[Audited<'static>] = &[
    (
        Command::Check(MOST_OF_LOOP_OR_COIN),
        MOST_OF_LOOP_OR_COIN,
        "state 0 lower 0.500000000000000 upper 0.500000000000000 audited Bracket\n",
        Status::Fine,
    ),
    (
        Command::Check(FIRST_OF_TWO_PLAYERS),
        FIRST_OF_TWO_PLAYERS,
        "state 0 lower 0.650000000000000 upper 0.650000000000000 audited True\n",
        Status::Fine,
    ),
    (
        Command::Check(MOST_OF_COIN_LOOP_WITH_PLAN),
        MOST_OF_COIN_LOOP_WITH_PLAN,
        "state 0 lower 0.500000000000000 upper 0.500000000000000 audited Bracket\n",
        Status::Fine,
    ),
];

#[test]
fn what_a_check_prints_is_accepted(rt: HostRuntime) -> Result<(), Fail> {
    printed_are_audited(&rt, rt.alloc(), PRINTED)
}

// Makes what a check prints of the loop or coin, with another line of state 0.
fn with_line(alloc: Global, line: &str) -> Result<String, Fail> {
    Ok(format!(in alloc;
        "state 0 lower 0.500000000000000 upper 0.500000000000000 rounds 2 Bracket\nformula Pmax=? [ F \"goal\" ]\ncertificate 2 3\n{line}\n1 1.000000000000000 - 0 1.000000000000000 -\n2 0.000000000000000 - 0 0.000000000000000 -\n"
    )?)
}

const CHANGES: &[(&str, &str)] = &[
    (
        "0 0.500000000000000 0 1 0.500000000000000 -",
        "0 NoStep state 0 choice 0",
    ),
    (
        "0 0.500000000000001 1 1 0.500000000000000 -",
        "0 Short state 0 choice 1",
    ),
    (
        "0 0.500000000000000 1 1 0.499999999999999 -",
        "0 Above state 0 choice 1",
    ),
];

// The text without a change is what is printed.
fn unchanged_is_printed<R: Threads + Sync>(rt: &R, alloc: Global) -> Result<(), Fail> {
    let (_, printed) = runs(rt, alloc, MOST_OF_LOOP_OR_COIN, &OpenGate {})?;
    let unchanged = with_line(alloc, "0 0.500000000000000 1 1 0.500000000000000 -")?;
    same("what is printed", unchanged.as_bytes(), printed.as_slice())
}

// Each change is refused with its cause.
fn changes_are_refused<R: Threads + Sync>(rt: &R, alloc: Global) -> Result<(), Fail> {
    for (line, cause) in CHANGES {
        let changed = with_line(alloc, line)?;
        audit_refuses(rt, alloc, MOST_OF_LOOP_OR_COIN, changed.as_str(), cause)?;
    }
    Ok(())
}

#[test]
fn one_change_in_a_line_is_refused(rt: HostRuntime) -> Result<(), Fail> {
    unchanged_is_printed(&rt, rt.alloc())?;
    changes_are_refused(&rt, rt.alloc())
}

const WITHOUT_ITS_LAST_LINE: &[Case<'static>] = &[Case {
    command: Command::Audit(
        MOST_OF_LOOP_OR_COIN,
        "state 0 lower 0.500000000000000 upper 0.500000000000000 rounds 2 Bracket\nformula Pmax=? [ F \"goal\" ]\ncertificate 2 3\n0 0.500000000000000 1 1 0.500000000000000 -\n1 1.000000000000000 - 0 1.000000000000000 -\n",
    ),
    text: "refused cert line 6 MissingLine\n",
    status: Status::CertificateRefused,
}];

#[test]
fn a_printed_text_without_its_last_line_is_refused(rt: HostRuntime) -> Result<(), Fail> {
    all_write(&rt, rt.alloc(), WITHOUT_ITS_LAST_LINE)
}

// The value of the coin loop is one half, and this certificate has it as both bounds.
const NEARER: &str =
    "certificate 2 3\n0 0.500000000000000 0 1 0.500000000000000 0\n1 1.000000000000000 - 0 1.000000000000000 -\n2 0.000000000000000 - 0 0.000000000000000 0\n";

const BY_THE_NEARER: &[Answer<'static>] = &[
    ("Pmax=? [ F \"goal\" ]", "Bracket", Status::Fine),
    ("P>=0.5 [ F \"goal\" ]", "True", Status::Fine),
    ("P<0.5 [ F \"goal\" ]", "False", Status::SomeFalse),
];

#[test]
fn a_nearer_certificate_settles_what_a_check_leaves_open(rt: HostRuntime) -> Result<(), Fail> {
    let front = "state 0 lower 0.500000000000000 upper 0.500000000000000 audited ";
    let command = Command::Audit(MOST_OF_COIN_LOOP, NEARER);
    answers_write(&rt, rt.alloc(), command, front, BY_THE_NEARER)
}

const WIDE: &[Case<'static>] = &[Case {
    command: Command::Audit(
        Row {
            formula: "P>=0.5 [ F \"goal\" ]",
            ..MOST_OF_COIN_LOOP
        },
        "certificate 2 3\n0 0.000000000000000 - 0 1.000000000000000 0\n1 1.000000000000000 - 0 1.000000000000000 -\n2 0.000000000000000 - 0 1.000000000000000 0\n",
    ),
    text: "state 0 lower 0.000000000000000 upper 1.000000000000000 audited Undecided\n",
    status: Status::SomeUndecided,
}];

#[test]
fn a_wide_certificate_leaves_a_threshold_open(rt: HostRuntime) -> Result<(), Fail> {
    all_write(&rt, rt.alloc(), WIDE)
}
