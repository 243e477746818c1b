//! These tests are of the words of the command line.

use crate::checks::comes_to;
use crate::models::USAGE;
use crate::{COIN_LOOP_REPORT, coin_loop_files, ends, words};
use game_outside::{OpenGate, SteadyShelf};
use std::alloc::Global;
use std::test::Fail;
use std::thread::Threads;
use stogame_app::Status;

const REACH: &str = "Pmax=? [ F \"goal\" ]";

// A run with these words writes this text and ends with this status.
fn writes<R: Threads + Sync>(
    rt: &R,
    alloc: Global,
    given: &[&str],
    text: &str,
    status: Status,
) -> Result<(), Fail> {
    let words = words(alloc, given)?;
    let mut shelf = SteadyShelf::new(coin_loop_files(alloc)?);
    let (ended, written) = ends(rt, alloc, &words, &mut shelf, &OpenGate {})?;
    comes_to(format_args!("{given:?}"), ended, &written, status, text)
}

// Each of these lists of words writes this text and ends with this status.
fn lists_write<R: Threads + Sync>(
    rt: &R,
    alloc: Global,
    lists: &[&[&str]],
    text: &str,
    status: Status,
) -> Result<(), Fail> {
    for given in lists {
        writes(rt, alloc, given, text, status)?;
    }
    Ok(())
}

// No list is a command: words are missing, empty or surplus, an option is unknown, is given twice, lacks its value or
// has a surplus one, or a number is out of range.
const NO_COMMAND: &[&[&str]] = &[
    &[],
    &["m.tra", "m.lab", REACH],
    &["check", "m.tra", "m.lab"],
    &["check", "m.tra", "", REACH],
    &["check", "m.tra", "m.lab", REACH, "more"],
    &["check", "m.tra", "m.lab", REACH, "--help"],
    &[
        "check", "m.tra", "m.lab", REACH, "--rounds", "1", "--rounds", "2",
    ],
    &["check", "m.tra", "m.lab", REACH, "--rounds", "+x"],
    &["check", "m.tra", "m.lab", REACH, "--own="],
    &["check", "m.tra", "m.lab", REACH, "--plan=true"],
    &["check", "m.tra", "m.lab", REACH, "--rounds", "1000001"],
    &["check", "m.tra", "m.lab", REACH, "--workers", "0"],
    &["check", "m.tra", "m.lab", REACH, "--workers", "65"],
    &["audit", "m.tra", "m.lab", REACH],
    &["audit", "m.tra", "m.lab", REACH, "c", "--plan"],
];

#[test]
fn other_words_give_the_usage_line(rt: HostRuntime) -> Result<(), Fail> {
    lists_write(&rt, rt.alloc(), NO_COMMAND, USAGE, Status::Usage)
}

const ANYWHERE: &[&[&str]] = &[
    &[
        "check",
        "m.tra",
        "m.lab",
        REACH,
        "--workers",
        "1",
        "--rounds",
        "99",
    ],
    &[
        "check",
        "--rounds",
        "99",
        "m.tra",
        "--workers",
        "1",
        "m.lab",
        REACH,
    ],
    &[
        "check",
        "m.tra",
        "--workers=1",
        "m.lab",
        REACH,
        "--rounds=+099",
        "--own",
        "m.own",
    ],
    &[
        "check",
        "--own=m.own",
        "--rounds=1000000",
        "--workers=64",
        "--",
        "m.tra",
        "m.lab",
        REACH,
    ],
    &[
        "check",
        "m.tra",
        "m.lab",
        "--workers",
        "007",
        "--rounds",
        "+50",
        REACH,
    ],
];

#[test]
fn options_stand_anywhere(rt: HostRuntime) -> Result<(), Fail> {
    lists_write(&rt, rt.alloc(), ANYWHERE, COIN_LOOP_REPORT, Status::Fine)
}

#[test]
fn a_single_minus_is_a_plain_word(rt: HostRuntime) -> Result<(), Fail> {
    let alloc = rt.alloc();
    let refused = Status::ModelRefused;
    let model: &[&str] = &["check", "-", "m.lab", REACH];
    writes(&rt, alloc, model, COIN_LOOP_REPORT, Status::Fine)?;
    let owners: &[&str] = &["check", "m.tra", "--own", "-", "m.lab", REACH];
    writes(
        &rt,
        alloc,
        owners,
        "refused own line 1 BadHeader\n",
        refused,
    )?;
    let formula: &[&str] = &["check", "m.tra", "m.lab", "-"];
    writes(
        &rt,
        alloc,
        formula,
        "refused formula place 0 Unexpected\n",
        refused,
    )
}

#[test]
fn behind_two_minus_no_word_is_an_option(rt: HostRuntime) -> Result<(), Fail> {
    let alloc = rt.alloc();
    let refused = Status::ModelRefused;
    let formula: &[&str] = &["check", "m.tra", "m.lab", "--", "--plan"];
    writes(
        &rt,
        alloc,
        formula,
        "refused formula place 0 Unexpected\n",
        refused,
    )?;
    let labels: &[&str] = &["check", "--", "m.tra", "--", REACH];
    writes(&rt, alloc, labels, "refused lab line 1 NoHeader\n", refused)
}

#[test]
fn an_empty_formula_is_refused_by_the_run(rt: HostRuntime) -> Result<(), Fail> {
    let given: &[&str] = &["check", "m.tra", "m.lab", ""];
    let text = "refused formula place 0 End\n";
    writes(&rt, rt.alloc(), given, text, Status::ModelRefused)
}

#[test]
fn a_run_of_no_rounds_has_its_certificate(rt: HostRuntime) -> Result<(), Fail> {
    let given = [
        "check",
        "--plan",
        "--rounds=0",
        "m.tra",
        "m.lab",
        "--",
        REACH,
    ];
    let text =
        "state 0 lower 0.000000000000004 upper 0.562949953421312 rounds 0 Bracket\nformula Pmax=? [ F \"goal\" ]\ncertificate 2 3\n0 0.000000000000004 0 1 0.562949953421312 -\n1 1.000000000000000 - 0 1.000000000000000 -\n2 0.000000000000000 - 0 0.000000000000000 -\n";
    writes(&rt, rt.alloc(), &given, text, Status::Fine)
}

const WORDS_OF_AUDIT: &[&[&str]] = &[
    &["audit", "m.tra", "m.lab", REACH, "c"],
    &["audit", "--own", "m.own", "m.tra", "m.lab", REACH, "c"],
    &["audit", "m.tra", "m.lab", "--own=m.own", REACH, "c"],
    &["audit", "m.tra", "m.lab", REACH, "c", "--own", "m.own"],
    &["audit", "m.tra", "m.lab", "--", REACH, "c"],
    &["audit", "--own=m.own", "--", "-", "m.lab", REACH, "c"],
];

#[test]
fn an_audit_takes_four_words_and_an_owner_file(rt: HostRuntime) -> Result<(), Fail> {
    let report = "state 0 lower 0.500000000000000 upper 0.500000000000000 audited Bracket\n";
    lists_write(&rt, rt.alloc(), WORDS_OF_AUDIT, report, Status::Fine)
}
