//! No tool writes these files. Each is refused with its line.

use crate::hostile::with_file;
use game_outside::{OpenGate, SteadyShelf};
use std::alloc::Global;
use std::test::Fail;
use std::thread::Threads;
use stogame_app::Status;
use worked_rows::asked::check_words;
use worked_rows::checks::comes_to;
use worked_rows::rows::files;
use worked_rows::tables::{audit_refuses, refuses};
use worked_rows::{
    COIN_LOOP_REPORT, FIRST_IS_TRUE, FIRST_OF_TWO_PLAYERS, MOST_OF_COIN_LOOP, MOST_OF_LOOP_OR_COIN,
    ONE_WORKER, Row, ends, file_of_bytes, push_times, writes,
};

/// No number of a file may be as large as this one.
const FAR: &str = "9999999999999999999999999999999999999999";

// The check of the coin loop with this transition file is refused for this cause.
fn refused<R: Threads + Sync>(rt: &R, alloc: Global, tra: &str, cause: &str) -> Result<(), Fail> {
    let row = Row {
        tra,
        ..MOST_OF_COIN_LOOP
    };
    let text = format!(in alloc; "refused tra line {cause}\n")?;
    refuses(rt, alloc, row, text.as_str())
}

// One of the counts of states, of choices and of lines is too large.
const FAR_COUNTS: &[(&str, &str, &str)] = &[(FAR, "1", "1"), ("1", FAR, "1"), ("1", "1", FAR)];

fn headers_are_refused<R: Threads + Sync>(rt: &R, alloc: Global) -> Result<(), Fail> {
    refused(rt, alloc, "", "1 NoHeader")?;
    refused(rt, alloc, "1000001 1 1\n", "1 OverLimit")?;
    for (states, choices, lines) in FAR_COUNTS {
        let tra = format!(in alloc; "{states} {choices} {lines}\n")?;
        refused(rt, alloc, tra.as_str(), "1 OverLimit")?;
    }
    Ok(())
}

#[test]
fn transition_headers_are_refused(rt: HostRuntime) -> Result<(), Fail> {
    headers_are_refused(&rt, rt.alloc())
}

const LINES: &[(&str, &str)] = &[
    (
        "3 3 4\n0 0 1 1.5\n0 0 2 0.25\n1 0 1 1\n2 0 2 1\n",
        "0 BadSum state 0 choice 0 sum 7 denominator 4",
    ),
    (
        "3 3 5\n0 0 0 0.5\n\n0 0 1 0.25\n0 0 2 0.25\n1 0 1 1\n2 0 2 1\n",
        "3 FieldCount",
    ),
    (
        "3 3 5\n0 0 0 0.5\n0 0 1 0.25\n0 0 2 0.25\n1 0 1 1\n2 0 2 1\n2 0 2 1\n",
        "7 LineCount read 6 stated 5",
    ),
    (
        "3 4 5\n0 0 0 0.5\n0 0 1 0.25\n0 0 2 0.25\n1 0 1 1\n2 0 2 1\n",
        "0 ChoiceCount read 3 stated 4",
    ),
    (
        "12 15 20\n0 0 1 0.33333333333333331 ask\n0 0 2 0.33333333333333331 asks\n0 0 3 0.33333333333333331 ask\n0 1 9 1 quit\n1 0 6 1 yes\n1 1 5 1 no\n2 0 10 0.10000000000000001 drop\n2 0 7 0.90000000000000002 drop\n3 0 0 0.5 retry\n3 0 4 0.5 retry\n4 0 11 1 fin\n5 0 4 0.69999999999999996 push\n5 0 10 0.30000000000000004 push\n6 0 4 1 send\n7 0 8 1 send\n8 0 4 1 ack\n9 0 9 1 stall\n9 1 4 1 go\n10 0 10 1 end\n11 0 11 1 end\n",
        "3 ActionClash state 0 choice 0",
    ),
];

fn lines_are_refused<R: Threads + Sync>(rt: &R, alloc: Global) -> Result<(), Fail> {
    for (tra, cause) in LINES {
        refused(rt, alloc, tra, cause)?;
    }
    Ok(())
}

#[test]
fn transition_lines_are_refused(rt: HostRuntime) -> Result<(), Fail> {
    lines_are_refused(&rt, rt.alloc())
}

// The check of the game of two players with a compressed file of this name writes this text.
fn compressed<R: Threads + Sync>(
    rt: &R,
    alloc: Global,
    name: &str,
    text: &str,
) -> Result<(), Fail> {
    let words = check_words(alloc, FIRST_OF_TWO_PLAYERS)?;
    let file = file_of_bytes(alloc, name, &[31, 139, 8, 0])?;
    let held = with_file(alloc, file, files(alloc, FIRST_OF_TWO_PLAYERS)?)?;
    let mut shelf = SteadyShelf::new(held);
    let (ended, written) = ends(rt, alloc, &words, &mut shelf, &OpenGate {})?;
    comes_to(name, ended, &written, Status::ModelRefused, text)
}

// A compressed file begins with one field, which is no header.
#[test]
fn compressed_files_have_no_header(rt: HostRuntime) -> Result<(), Fail> {
    let alloc = rt.alloc();
    compressed(&rt, alloc, "m.tra", "refused tra line 1 NoHeader\n")?;
    compressed(&rt, alloc, "m.lab", "refused lab line 1 BadHeader\n")?;
    compressed(&rt, alloc, "m.own", "refused own line 1 BadHeader\n")
}

// The check of the coin loop with this label file writes this text.
fn labels_give<R: Threads + Sync>(
    rt: &R,
    alloc: Global,
    lab: &str,
    text: &str,
    status: Status,
) -> Result<(), Fail> {
    let row = Row {
        lab,
        ..MOST_OF_COIN_LOOP
    };
    writes(rt, alloc, row, text, status)
}

// The check of the game of two players with this owner file writes this text.
fn owners_give<R: Threads + Sync>(
    rt: &R,
    alloc: Global,
    own: &str,
    text: &str,
    status: Status,
) -> Result<(), Fail> {
    let row = Row {
        own: Some(own),
        numbers: ONE_WORKER,
        ..FIRST_OF_TWO_PLAYERS
    };
    writes(rt, alloc, row, text, status)
}

// Makes a header of this many names, of which these are the first two.
fn many_names(alloc: Global, first_two: &str, count: u32) -> Result<String, Fail> {
    let mut text = String::from_str(alloc, first_two)?;
    for index in 2..count {
        let item = format!(in alloc; " {index}=\"n{index}\"")?;
        text.push_str(item.as_str())?;
    }
    Ok(text)
}

// A header of this many labels gives this text and status.
fn label_count<R: Threads + Sync>(
    rt: &R,
    alloc: Global,
    count: u32,
    text: &str,
    status: Status,
) -> Result<(), Fail> {
    let mut lab = many_names(alloc, "0=\"init\" 1=\"goal\"", count)?;
    lab.push_str("\n0: 0\n1: 1\n")?;
    labels_give(rt, alloc, lab.as_str(), text, status)
}

#[test]
fn a_label_beyond_the_thousandth_is_refused(rt: HostRuntime) -> Result<(), Fail> {
    label_count(&rt, rt.alloc(), 1000, COIN_LOOP_REPORT, Status::Fine)?;
    let refusal = "refused lab line 1 OverLimit\n";
    label_count(&rt, rt.alloc(), 1001, refusal, Status::ModelRefused)
}

// A header of this many players gives this text and status.
fn player_count<R: Threads + Sync>(
    rt: &R,
    alloc: Global,
    count: u32,
    text: &str,
    status: Status,
) -> Result<(), Fail> {
    let mut own = many_names(alloc, "0=\"p1\" 1=\"p2\"", count)?;
    own.push_str("\n1: 1\n")?;
    owners_give(rt, alloc, own.as_str(), text, status)
}

#[test]
fn a_player_beyond_the_64th_is_refused(rt: HostRuntime) -> Result<(), Fail> {
    player_count(&rt, rt.alloc(), 64, FIRST_IS_TRUE, Status::Fine)?;
    let refusal = "refused own line 1 OverLimit\n";
    player_count(&rt, rt.alloc(), 65, refusal, Status::ModelRefused)
}

// Makes a header with a third item, whose name has this many bytes.
fn long_name(alloc: Global, first_two: &str, bytes: u32) -> Result<String, Fail> {
    let mut text = format!(in alloc; "{first_two} 2=\"")?;
    push_times(&mut text, "n", bytes)?;
    text.push_str("\"\n")?;
    Ok(text)
}

// A label of this many bytes gives this text and status.
fn label_length<R: Threads + Sync>(
    rt: &R,
    alloc: Global,
    bytes: u32,
    text: &str,
    status: Status,
) -> Result<(), Fail> {
    let mut lab = long_name(alloc, "0=\"init\" 1=\"goal\"", bytes)?;
    lab.push_str("0: 0\n1: 1 2\n")?;
    labels_give(rt, alloc, lab.as_str(), text, status)
}

#[test]
fn a_label_of_256_bytes_is_refused(rt: HostRuntime) -> Result<(), Fail> {
    label_length(&rt, rt.alloc(), 255, COIN_LOOP_REPORT, Status::Fine)?;
    let refusal = "refused lab line 1 BadHeader\n";
    label_length(&rt, rt.alloc(), 256, refusal, Status::ModelRefused)
}

// A player whose name has this many bytes gives this text and status.
fn player_length<R: Threads + Sync>(
    rt: &R,
    alloc: Global,
    bytes: u32,
    text: &str,
    status: Status,
) -> Result<(), Fail> {
    let mut own = long_name(alloc, "0=\"p1\" 1=\"p2\"", bytes)?;
    own.push_str("1: 1\n2: 2\n")?;
    owners_give(rt, alloc, own.as_str(), text, status)
}

#[test]
fn a_player_of_256_bytes_is_refused(rt: HostRuntime) -> Result<(), Fail> {
    player_length(&rt, rt.alloc(), 255, FIRST_IS_TRUE, Status::Fine)?;
    let refusal = "refused own line 1 BadHeader\n";
    player_length(&rt, rt.alloc(), 256, refusal, Status::ModelRefused)
}

// One of an index in a header, a state and the index of that state has 40 digits.
const OF_40_DIGITS: [(&str, &str, &str, &str); 3] = [
    (FAR, "0", "0", "1 OverLimit"),
    ("1", FAR, "0", "2 StateOutOfRange"),
    ("1", "0", FAR, "2 UnknownIndex"),
];

fn far_labels_are_refused<R: Threads + Sync>(rt: &R, alloc: Global) -> Result<(), Fail> {
    for (index, state, said, cause) in OF_40_DIGITS.as_slice() {
        let lab = format!(in alloc; "0=\"init\" {index}=\"goal\"\n{state}: {said}\n")?;
        let text = format!(in alloc; "refused lab line {cause}\n")?;
        labels_give(rt, alloc, lab.as_str(), text.as_str(), Status::ModelRefused)?;
    }
    Ok(())
}

#[test]
fn labels_of_40_digits_are_refused(rt: HostRuntime) -> Result<(), Fail> {
    far_labels_are_refused(&rt, rt.alloc())
}

fn far_owners_are_refused<R: Threads + Sync>(rt: &R, alloc: Global) -> Result<(), Fail> {
    for (index, state, said, cause) in OF_40_DIGITS.as_slice() {
        let own = format!(in alloc; "0=\"p1\" {index}=\"p2\"\n{state}: {said}\n")?;
        let text = format!(in alloc; "refused own line {cause}\n")?;
        owners_give(rt, alloc, own.as_str(), text.as_str(), Status::ModelRefused)?;
    }
    Ok(())
}

#[test]
fn owners_of_40_digits_are_refused(rt: HostRuntime) -> Result<(), Fail> {
    far_owners_are_refused(&rt, rt.alloc())
}

// One of a state, a choice and a destination has 40 digits.
const FAR_LINES: &[(&str, &str, &str, &str)] = &[
    (FAR, "0", "1", "2 StateOutOfRange"),
    ("0", FAR, "1", "2 OverLimit"),
    ("0", "0", FAR, "2 StateOutOfRange"),
];

fn far_transitions_are_refused<R: Threads + Sync>(rt: &R, alloc: Global) -> Result<(), Fail> {
    for (source, choice, destination, cause) in FAR_LINES {
        let tra = format!(in alloc; "3 3 5\n{source} {choice} {destination} 1\n")?;
        refused(rt, alloc, tra.as_str(), cause)?;
    }
    Ok(())
}

#[test]
fn transitions_of_40_digits_are_refused(rt: HostRuntime) -> Result<(), Fail> {
    far_transitions_are_refused(&rt, rt.alloc())
}

// This number has 40 digits, of which all but the last are zeros.
const ONE: &str = "0000000000000000000000000000000000000001";

fn zeros_change_nothing<R: Threads + Sync>(rt: &R, alloc: Global) -> Result<(), Fail> {
    let lab = format!(in alloc; "0=\"init\" {ONE}=\"goal\"\n0: 0\n{ONE}: {ONE}\n")?;
    labels_give(rt, alloc, lab.as_str(), COIN_LOOP_REPORT, Status::Fine)?;
    let own = format!(in alloc; "0=\"p1\" {ONE}=\"p2\"\n{ONE}: {ONE}\n")?;
    owners_give(rt, alloc, own.as_str(), FIRST_IS_TRUE, Status::Fine)
}

#[test]
fn zeros_before_a_number_play_no_part(rt: HostRuntime) -> Result<(), Fail> {
    zeros_change_nothing(&rt, rt.alloc())
}

const KEPT: &str = "0 0.500000000000000 1 1 0.500000000000000 -";

const GOAL: &str = "1 1.000000000000000 - 0 1.000000000000000 -";

// Each row has the head of a certificate, its first two lines, and why it is refused.
const CHANGED: &[(&str, &str, &str, &str)] = &[
    ("9 3", KEPT, GOAL, "3 Version"),
    (
        "2 3",
        "0 0.500000000000000 5 1 0.500000000000000 -",
        GOAL,
        "0 Choice state 0",
    ),
    (
        "2 3",
        "0 0.400000000000000 1 1 0.500000000000000 -",
        "1 0.900000000000000 - 0 1.000000000000000 -",
        "0 Value state 1",
    ),
];

fn changed_texts_are_refused<R: Threads + Sync>(rt: &R, alloc: Global) -> Result<(), Fail> {
    for (header, first, second, cause) in CHANGED {
        let certificate = format!(in alloc;
            "state 0 lower 0.500000000000000 upper 0.500000000000000 rounds 2 Bracket\nformula Pmax=? [ F \"goal\" ]\ncertificate {header}\n{first}\n{second}\n2 0.000000000000000 - 0 0.000000000000000 -\n"
        )?;
        audit_refuses(rt, alloc, MOST_OF_LOOP_OR_COIN, certificate.as_str(), cause)?;
    }
    Ok(())
}

#[test]
fn printed_texts_that_were_changed_are_refused_as_certificates(
    rt: HostRuntime,
) -> Result<(), Fail> {
    changed_texts_are_refused(&rt, rt.alloc())
}

const KEPT_REPLY: &str = "1 0.200000000000000 - 1 0.200000000000000 1";

const GOAL_OF_TWO: &str = "2 1.000000000000000 - 0 1.000000000000000 -";

// Each row has the lines of states 1 and 2, and why the certificate is refused.
const CHANGED_OF_TWO: &[(&str, &str, &str)] = &[
    (
        "1 0.200000000000000 - 1 0.100000000000000 1",
        GOAL_OF_TWO,
        "0 NoReply state 1",
    ),
    (
        KEPT_REPLY,
        "2 1.000000000000000 - 0 0.900000000000000 -",
        "0 Goal state 2",
    ),
];

fn changed_replies_are_refused<R: Threads + Sync>(rt: &R, alloc: Global) -> Result<(), Fail> {
    for (second, third, cause) in CHANGED_OF_TWO {
        let certificate = format!(in alloc;
            "state 0 lower 0.650000000000000 upper 0.650000000000000 rounds 1 True\nformula <<p1>> P>=3/5 [ F \"goal\" ]\ncertificate 2 4\n0 0.650000000000000 1 1 0.650000000000000 -\n{second}\n{third}\n3 0.000000000000000 - 0 0.000000000000000 -\n"
        )?;
        audit_refuses(rt, alloc, FIRST_OF_TWO_PLAYERS, certificate.as_str(), cause)?;
    }
    Ok(())
}

#[test]
fn printed_replies_and_upper_values_that_were_changed_are_refused(
    rt: HostRuntime,
) -> Result<(), Fail> {
    changed_replies_are_refused(&rt, rt.alloc())
}
