//! These texts are longer than the buffer of their reader, or as long as a limit.

ghost use Rattle.std.specs.Prelude.{◌<◌};

use crate::outside::pieces::gives_in_pieces;
use game_outside::{FileEnd, MemShelf};
use label_reader::{read_labels_from, read_owners_from};
use sample_games::expectations::{holds, same};
use std::alloc::Global;
use std::test::Fail;
use std::thread::Threads;
use stogame_app::Status;
use tra_reader::read_tra_from;
use worked_rows::{
    COIN_LOOP, COIN_LOOP_REPORT, Case, Command, FIRST_IS_TRUE, FIRST_OF_TWO_PLAYERS, GOAL_AT_1,
    MOST_OF_COIN_LOOP, ONE_WORKER, Row, SECOND_OWNS_1, file, push_times,
};

/// Each line is given with the number of times that it is written.
type Lines = &'static [(&'static str, u32)];

/// The goal has 210 of 700 parts.
const TRANSITIONS: Lines = &[
    ("0 0 1 1/700\r\n", 210),
    ("0 0 2 1/700\r\n", 490),
    ("1 0 1 1\r\n", 1),
    ("2 0 2 1\r\n", 1),
];

/// The same lines are given, but the first one comes too early.
const OUT_OF_ORDER: Lines = &[
    ("1 0 1 1\r\n", 1),
    ("0 0 1 1/700\r\n", 210),
    ("0 0 2 1/700\r\n", 490),
    ("2 0 2 1\r\n", 1),
];

/// A state of the last line is out of range.
const OUT_OF_RANGE: Lines = &[
    ("0 0 1 1/700\r\n", 210),
    ("0 0 2 1/700\r\n", 490),
    ("1 0 1 1\r\n", 1),
    ("2 0 3 1\r\n", 1),
];

const LABELS: Lines = &[("0: 0\r\n", 1), ("1: 1\r\n", 1500)];

/// The last line has an index that the header does not name.
const UNKNOWN_INDEX: Lines = &[("0: 0\r\n", 1), ("1: 1\r\n", 1500), ("1: 7\r\n", 1)];

const OWNERS: Lines = &[("1: 1\r\n", 1500)];

/// The last line names another owner.
const TWO_OWNERS: Lines = &[("1: 1\r\n", 1500), ("1: 0\r\n", 1)];

// Makes a header with this many blanks after it, and lines. All end in CR and LF.
fn long_text(alloc: Global, header: &str, blanks: u32, lines: Lines) -> Result<String, Fail> {
    let mut text = String::from_str(alloc, header)?;
    push_times(&mut text, " ", blanks)?;
    text.push_str("\r\n")?;
    for (line, times) in lines {
        push_times(&mut text, line, *times)?;
    }
    if_long(text)
}

// Returns the text if it is longer than two buffers.
fn if_long(text: String) -> Result<String, Fail> {
    if text.len() > 2 * 4096 {
        Ok(text)
    } else {
        Err(Fail::new("the text is short"))
    }
}

// The check of a row gives the same in pieces of each size.
fn check_gives<R: Threads + Sync>(
    rt: &R,
    alloc: Global,
    row: Row<'_>,
    text: &str,
    status: Status,
) -> Result<(), Fail> {
    let command = Command::Check(row);
    let case = Case {
        command,
        text,
        status,
    };
    gives_in_pieces(rt, alloc, case)
}

fn transitions_give<R: Threads + Sync>(
    rt: &R,
    alloc: Global,
    lines: Lines,
    text: &str,
    status: Status,
) -> Result<(), Fail> {
    // There are as many blanks as a line has bytes, so each byte of a line comes first after the end of the buffer
    // once.
    for blanks in 0..13 {
        let tra = long_text(alloc, "3 3 702", blanks, lines)?;
        let row = Row {
            tra: tra.as_str(),
            ..MOST_OF_COIN_LOOP
        };
        check_gives(rt, alloc, row, text, status)?;
    }
    Ok(())
}

fn labels_give<R: Threads + Sync>(
    rt: &R,
    alloc: Global,
    lines: Lines,
    text: &str,
    status: Status,
) -> Result<(), Fail> {
    for blanks in 0..6 {
        let lab = long_text(alloc, "0=\"init\" 1=\"goal\"", blanks, lines)?;
        let row = Row {
            lab: lab.as_str(),
            ..MOST_OF_COIN_LOOP
        };
        check_gives(rt, alloc, row, text, status)?;
    }
    Ok(())
}

fn owners_give<R: Threads + Sync>(
    rt: &R,
    alloc: Global,
    lines: Lines,
    text: &str,
    status: Status,
) -> Result<(), Fail> {
    for blanks in 0..6 {
        let own = long_text(alloc, "0=\"p1\" 1=\"p2\"", blanks, lines)?;
        let row = Row {
            own: Some(own.as_str()),
            numbers: ONE_WORKER,
            ..FIRST_OF_TWO_PLAYERS
        };
        check_gives(rt, alloc, row, text, status)?;
    }
    Ok(())
}

/// The transitions give this report.
const REPORT: &str = "state 0 lower 0.300000000000000 upper 0.300000000000000 rounds 2 Bracket\n";

#[test]
fn long_transition_files_may_be_cut_anywhere(rt: HostRuntime) -> Result<(), Fail> {
    transitions_give(&rt, rt.alloc(), TRANSITIONS, REPORT, Status::Fine)
}

#[test]
fn long_transition_files_out_of_order_may_be_cut_anywhere(rt: HostRuntime) -> Result<(), Fail> {
    transitions_give(&rt, rt.alloc(), OUT_OF_ORDER, REPORT, Status::Fine)
}

#[test]
fn long_transition_files_may_be_cut_anywhere_before_a_fault(rt: HostRuntime) -> Result<(), Fail> {
    let refusal = "refused tra line 703 StateOutOfRange\n";
    transitions_give(&rt, rt.alloc(), OUT_OF_RANGE, refusal, Status::ModelRefused)
}

#[test]
fn long_label_files_may_be_cut_anywhere(rt: HostRuntime) -> Result<(), Fail> {
    let alloc = rt.alloc();
    labels_give(&rt, alloc, LABELS, COIN_LOOP_REPORT, Status::Fine)?;
    let refusal = "refused lab line 1503 UnknownIndex\n";
    labels_give(&rt, alloc, UNKNOWN_INDEX, refusal, Status::ModelRefused)
}

#[test]
fn long_owner_files_may_be_cut_anywhere(rt: HostRuntime) -> Result<(), Fail> {
    let alloc = rt.alloc();
    owners_give(&rt, alloc, OWNERS, FIRST_IS_TRUE, Status::Fine)?;
    let refusal = "refused own line 1502 TwoOwners state 1\n";
    owners_give(&rt, alloc, TWO_OWNERS, refusal, Status::ModelRefused)
}

// Makes a shelf with the files of a model.
fn shelf_in_pieces(alloc: Global, piece: u32) -> Result<MemShelf, Fail>
    requires { 0 < piece }
{
    let mut held = Vec::new(alloc);
    held.push(file(alloc, "m.tra", COIN_LOOP)?)?;
    held.push(file(alloc, "m.lab", GOAL_AT_1)?)?;
    held.push(file(alloc, "m.own", SECOND_OWNS_1)?)?;
    Ok(MemShelf::new(held, piece, Vec::new(alloc)))
}

// The file is read with a limit of this many bytes, and is too long with one byte less.
fn transitions_of_54_bytes(alloc: Global, piece: u32) -> Result<(), Fail>
    requires { 0 < piece }
{
    let mut shelf = shelf_in_pieces(alloc, piece)?;
    let whole = read_tra_from(alloc, &mut shelf, "m.tra", 54);
    holds(format_args!("read in pieces of {piece}"), whole.is_ok())?;
    let long = read_tra_from(alloc, &mut shelf, "m.tra", 53);
    holds(
        format_args!("too long in pieces of {piece}"),
        matches!(long, Err(FileEnd::TooLong)),
    )
}

// The file is read with a limit of this many bytes, and is too long with one byte less.
fn labels_of_28_bytes(alloc: Global, piece: u32) -> Result<(), Fail>
    requires { 0 < piece }
{
    let mut shelf = shelf_in_pieces(alloc, piece)?;
    let whole = read_labels_from(alloc, &mut shelf, "m.lab", 28, 3);
    holds(format_args!("read in pieces of {piece}"), whole.is_ok())?;
    let long = read_labels_from(alloc, &mut shelf, "m.lab", 27, 3);
    holds(
        format_args!("too long in pieces of {piece}"),
        matches!(long, Err(FileEnd::TooLong)),
    )
}

// The file is read with a limit of this many bytes, and is too long with one byte less.
fn owners_of_19_bytes(alloc: Global, piece: u32) -> Result<(), Fail>
    requires { 0 < piece }
{
    let mut shelf = shelf_in_pieces(alloc, piece)?;
    let whole = read_owners_from(alloc, &mut shelf, "m.own", 19, 3);
    holds(format_args!("read in pieces of {piece}"), whole.is_ok())?;
    let long = read_owners_from(alloc, &mut shelf, "m.own", 18, 3);
    holds(
        format_args!("too long in pieces of {piece}"),
        matches!(long, Err(FileEnd::TooLong)),
    )
}

fn files_of_the_limit(alloc: Global) -> Result<(), Fail> {
    let lengths = (COIN_LOOP.len(), GOAL_AT_1.len(), SECOND_OWNS_1.len());
    same("bytes", lengths, (54, 28, 19))?;
    for piece in [1, 8, 28, 4096] {
        transitions_of_54_bytes(alloc, piece)?;
        labels_of_28_bytes(alloc, piece)?;
        owners_of_19_bytes(alloc, piece)?;
    }
    Ok(())
}

#[test]
fn files_may_be_as_long_as_the_limit(rt: HostRuntime) -> Result<(), Fail> {
    files_of_the_limit(rt.alloc())
}
