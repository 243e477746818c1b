//! Certificates are refused for the faults of their texts, and of what they say.

use game_outside::{MemShelf, OpenGate};
use std::alloc::Global;
use std::test::Fail;
use std::thread::Threads;
use stogame_app::Status;
use worked_rows::asked::audit_words;
use worked_rows::checks::comes_to;
use worked_rows::rows::files;
use worked_rows::tables::{audit_refuses, prints};
use worked_rows::{
    Command, FIRST_OF_TWO_PLAYERS, MOST_OF_COIN_LOOP, MOST_OF_LOOP_OR_COIN, Row, ends,
};

const TEXTS: &[(&str, &str)] = &[
    ("", "0 NoCertificate"),
    ("certificates 2 3\n", "0 NoCertificate"),
    ("certificate 2\n", "1 BadLine"),
    ("\ncertificate 2 3 3\n", "2 BadLine"),
    ("certificate 3 3\n", "1 Version"),
    ("certificate 9 3\n", "1 Version"),
    ("certificate 2 4\n", "1 StateCount"),
    ("certificate 2 3\n0 0.5 1 1 0.5 -\n", "2 BadLine"),
    (
        "certificate 2 3\n0 0.500000000000 1 1 0.500000000000 -\n",
        "2 BadLine",
    ),
    (
        "certificate 1 3\n0 0.500000000000000 1 1 0.500000000000000 -\n",
        "2 BadLine",
    ),
    (
        "certificate 1 3\n0 1.000000000001 1 1 1.000000000000 -\n",
        "2 NumberOutOfRange",
    ),
    (
        "certificate 2 3\n0 0.500000000000000 1 1 0.500000000000000 -\n2 0.000000000000000 - 0 0.000000000000000 -\n",
        "3 BadLine",
    ),
    (
        "certificate 2 3\n0 1.000000000000001 1 1 1.000000000000000 -\n",
        "2 NumberOutOfRange",
    ),
    (
        "certificate 2 3\n0 0.500000000000000 16384 1 0.500000000000000 -\n",
        "2 NumberOutOfRange",
    ),
    (
        "certificate 2 3\n0 0.500000000000000 1 4294967296 0.500000000000000 -\n",
        "2 NumberOutOfRange",
    ),
    ("certificate 2 3\n", "2 MissingLine"),
    (
        "certificate 2 3\n0 0.500000000000000 1 1 0.500000000000000 -\n1 1.000000000000000 - 0 1.000000000000000 -\n\n",
        "4 MissingLine",
    ),
    (
        "certificate 2 3\n0 0.500000000000000 1 1 0.500000000000000 -\n1 1.000000000000000 - 0 1.000000000000000 -\n2 0.000000000000000 - 0 0.000000000000000 -\n\nend\n",
        "6 BadLine",
    ),
];

fn texts_are_refused<R: Threads + Sync>(rt: &R, alloc: Global) -> Result<(), Fail> {
    for (certificate, cause) in TEXTS {
        audit_refuses(rt, alloc, MOST_OF_LOOP_OR_COIN, certificate, cause)?;
    }
    Ok(())
}

#[test]
fn texts_of_certificates_are_refused_at_their_line(rt: HostRuntime) -> Result<(), Fail> {
    texts_are_refused(&rt, rt.alloc())
}

// These are the lines of the certificate of the first player's threshold in the game of two players.
const LINES: [&str; 4] = [
    "0 0.650000000000000 1 1 0.650000000000000 -",
    "1 0.200000000000000 - 1 0.200000000000000 1",
    "2 1.000000000000000 - 0 1.000000000000000 -",
    "3 0.000000000000000 - 0 0.000000000000000 -",
];

// Makes that certificate, with each of these lines in place of the line of its state.
fn with_changes(alloc: Global, changes: &[&str]) -> Result<String, Fail> {
    let mut text = String::from_str(alloc, "certificate 2 4\n")?;
    for line in LINES {
        let mut changed = line;
        for change in changes {
            if change.as_bytes().first() == line.as_bytes().first() {
                changed = *change;
            }
        }
        text.push_str(changed)?;
        text.push_str("\n")?;
    }
    Ok(text)
}

// The certificate with these changes is refused with this line and cause.
fn refused<R: Threads + Sync>(
    rt: &R,
    alloc: Global,
    changes: &[&str],
    cause: &str,
) -> Result<(), Fail> {
    let certificate = with_changes(alloc, changes)?;
    audit_refuses(rt, alloc, FIRST_OF_TWO_PLAYERS, certificate.as_str(), cause)
}

const CAUSES: &[(&str, &str)] = &[
    (
        "0 0.650000000000000 1 1 1.000000000000001 -",
        "2 NumberOutOfRange",
    ),
    (
        "2 1.000000000000000 - 0 0.999999999999999 -",
        "0 Goal state 2",
    ),
    (
        "0 0.650000000000000 1 1 0.649999999999999 -",
        "0 Above state 0 choice 1",
    ),
    (
        "1 0.200000000000000 - 1 0.199999999999999 1",
        "0 NoReply state 1",
    ),
    (
        "1 0.200000000000000 - 1 0.200000000000000 -",
        "0 Reply state 1",
    ),
    (
        "1 0.200000000000000 - 1 0.200000000000000 0",
        "0 Reply state 1",
    ),
    (
        "1 0.200000000000000 - 1 0.200000000000000 2",
        "0 Reply state 1",
    ),
    (
        "0 0.650000000000000 - 1 0.650000000000000 -",
        "0 Choice state 0",
    ),
    (
        "0 0.650000000000000 2 1 0.650000000000000 -",
        "0 Choice state 0",
    ),
    (
        "0 0.650000000000001 1 1 0.650000000000000 -",
        "0 Short state 0 choice 1",
    ),
    (
        "1 0.200000000000001 - 1 0.200000000000000 1",
        "0 Short state 1 choice 1",
    ),
    (
        "0 0.200000000000000 0 1 0.650000000000000 -",
        "0 NoStep state 0 choice 0",
    ),
    (
        "3 0.100000000000000 - 9 0.000000000000000 -",
        "0 Choice state 3",
    ),
    (
        "3 0.100000000000000 0 9 0.000000000000000 -",
        "0 NoStep state 3 choice 0",
    ),
];

fn each_change_is_refused<R: Threads + Sync>(rt: &R, alloc: Global) -> Result<(), Fail> {
    for (change, cause) in CAUSES {
        refused(rt, alloc, &[change], cause)?;
    }
    Ok(())
}

// A goal has a lower value that is not 1, and nothing else is false.
const LOWER_BELOW_1: &[&str] = &[
    "0 0.000000000000000 - 0 0.650000000000000 -",
    "1 0.000000000000000 - 0 0.200000000000000 1",
    "2 0.999999999999999 - 0 1.000000000000000 -",
];

#[test]
fn each_cause_is_named_with_its_state(rt: HostRuntime) -> Result<(), Fail> {
    each_change_is_refused(&rt, rt.alloc())?;
    refused(&rt, rt.alloc(), LOWER_BELOW_1, "0 Value state 2")
}

const RIGHT: &[(&str, &str, Status)] = &[
    (
        "1 0.200000000000000 7 1 0.200000000000000 1",
        "lower 0.650000000000000 upper 0.650000000000000 audited True",
        Status::Fine,
    ),
    (
        "0 0.200000000000000 0 2 0.650000000000000 5",
        "lower 0.200000000000000 upper 0.650000000000000 audited Undecided",
        Status::SomeUndecided,
    ),
    (
        "0 0.600000000000000 1 0 0.700000000000000 -",
        "lower 0.600000000000000 upper 0.700000000000000 audited True",
        Status::Fine,
    ),
    (
        "3 0.000000000000000 5 9 0.000000000000000 5",
        "lower 0.650000000000000 upper 0.650000000000000 audited True",
        Status::Fine,
    ),
];

fn right_changes_are_accepted<R: Threads + Sync>(rt: &R, alloc: Global) -> Result<(), Fail> {
    for (change, bounds, status) in RIGHT {
        let certificate = with_changes(alloc, &[change])?;
        let text = format!(in alloc; "state 0 {bounds}\n")?;
        let audit = Command::Audit(FIRST_OF_TWO_PLAYERS, certificate.as_str());
        prints(rt, alloc, audit, text.as_str(), *status)?;
    }
    Ok(())
}

#[test]
fn lines_that_are_other_but_right_are_accepted(rt: HostRuntime) -> Result<(), Fail> {
    right_changes_are_accepted(&rt, rt.alloc())
}

const NO_CHOICE: &str = "0 0.650000000000000 - 1 0.650000000000000 -";

const TOO_LOW: &str = "0 0.650000000000000 - 1 0.000000000000000 -";

const NO_REPLY: &str = "1 0.200000000000000 - 1 0.200000000000000 -";

const UPPER_BELOW_1: &str = "2 1.000000000000000 - 0 0.999999999999999 -";

const OVER_ONE: &str = "3 0.000000000000000 - 0 1.000000000000001 -";

// Each row has changes, and the cause that is named first.
const FIRST_CAUSES: &[(&[&str], &str)] = &[
    (&[NO_CHOICE], "0 Choice state 0"),
    (&[NO_CHOICE, NO_REPLY], "0 Reply state 1"),
    (&[NO_CHOICE, NO_REPLY, UPPER_BELOW_1], "0 Goal state 2"),
    (
        &[TOO_LOW, NO_REPLY, UPPER_BELOW_1],
        "0 Above state 0 choice 0",
    ),
    (&[UPPER_BELOW_1, OVER_ONE], "5 NumberOutOfRange"),
    (
        &[TOO_LOW, NO_REPLY, UPPER_BELOW_1, OVER_ONE],
        "5 NumberOutOfRange",
    ),
];

fn first_causes_are_told<R: Threads + Sync>(rt: &R, alloc: Global) -> Result<(), Fail> {
    for (changes, cause) in FIRST_CAUSES {
        refused(rt, alloc, changes, cause)?;
    }
    Ok(())
}

#[test]
fn the_text_comes_first_and_then_upper_bounds_replies_and_lower_bounds(
    rt: HostRuntime,
) -> Result<(), Fail> {
    first_causes_are_told(&rt, rt.alloc())
}

// An audit whose certificate is not held writes this text and ends with this status.
fn writes_without<R: Threads + Sync>(
    rt: &R,
    alloc: Global,
    row: Row<'_>,
    text: &str,
    status: Status,
) -> Result<(), Fail> {
    let words = audit_words(alloc, row)?;
    let mut shelf = MemShelf::new(files(alloc, row)?, 4096, Vec::new(alloc));
    let (ended, written) = ends(rt, alloc, &words, &mut shelf, &OpenGate {})?;
    comes_to("no certificate", ended, &written, status, text)
}

#[test]
fn a_certificate_that_is_not_held_writes_nothing(rt: HostRuntime) -> Result<(), Fail> {
    writes_without(&rt, rt.alloc(), FIRST_OF_TWO_PLAYERS, "", Status::ReadFault)
}

const REFUSED_MODELS: &[(Row<'static>, &str)] = &[
    (
        Row {
            tra: "three states\n",
            ..MOST_OF_COIN_LOOP
        },
        "refused tra line 1 NoHeader\n",
    ),
    (
        Row {
            lab: "",
            ..MOST_OF_COIN_LOOP
        },
        "refused lab line 1 NoHeader\n",
    ),
    (
        Row {
            own: Some("none\n"),
            ..MOST_OF_LOOP_OR_COIN
        },
        "refused own line 1 BadHeader\n",
    ),
    (
        Row {
            formula: "Pmax=? [ F goal ]",
            ..MOST_OF_COIN_LOOP
        },
        "refused formula place 11 Unexpected\n",
    ),
    (
        Row {
            formula: "Pmax=? [ F \"gaol\" ]",
            ..MOST_OF_COIN_LOOP
        },
        "refused question line 0 UnknownLabel gaol\n",
    ),
];

// The audit is refused in this way, with a certificate and without one.
fn models_are_refused<R: Threads + Sync>(rt: &R, alloc: Global) -> Result<(), Fail> {
    for (row, text) in REFUSED_MODELS {
        let audit = Command::Audit(*row, "certificate 2 3\n");
        prints(rt, alloc, audit, text, Status::ModelRefused)?;
        writes_without(rt, alloc, *row, text, Status::ModelRefused)?;
    }
    Ok(())
}

#[test]
fn a_model_is_refused_before_its_certificate(rt: HostRuntime) -> Result<(), Fail> {
    models_are_refused(&rt, rt.alloc())
}
