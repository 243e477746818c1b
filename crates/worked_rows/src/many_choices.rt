//! A state has as many choices as it may have, and one more.

use crate::{MOST_OF_COIN_LOOP, Row, push_times, writes};
use std::alloc::Global;
use std::test::Fail;
use std::thread::Threads;
use stogame_app::Status;

// A state has at most this many choices.
const MOST: u32 = 16_384;

// Makes a state with this many choices, each of which stays there.
fn staying(alloc: Global, choices: u32) -> Result<String, Fail> {
    let mut text = format!(in alloc; "1 {choices} {choices}\n")?;
    for choice in 0..choices {
        let line = format!(in alloc; "0 {choice} 0 1\n")?;
        push_times(&mut text, line.as_str(), 1)?;
    }
    Ok(text)
}

// A state with this many choices gives this text and status.
fn choices_give<R: Threads + Sync>(
    rt: &R,
    alloc: Global,
    choices: u32,
    text: &str,
    status: Status,
) -> Result<(), Fail> {
    let tra = staying(alloc, choices)?;
    let row = Row {
        tra: tra.as_str(),
        lab: "0=\"init\" 1=\"goal\"\n0: 0\n",
        ..MOST_OF_COIN_LOOP
    };
    writes(rt, alloc, row, text, status)
}

#[test]
fn a_state_has_at_most_16384_choices(rt: HostRuntime) -> Result<(), Fail> {
    let most = "state 0 lower 0.000000000000000 upper 0.000000000000000 rounds 1 Bracket\n";
    choices_give(&rt, rt.alloc(), MOST, most, Status::Fine)?;
    let more = "refused tra line 0 TooManyChoices state 0\n";
    choices_give(&rt, rt.alloc(), MOST + 1, more, Status::ModelRefused)
}
