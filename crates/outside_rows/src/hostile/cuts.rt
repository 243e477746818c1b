//! The transition file of the coin loop is cut after each byte.

use game_outside::OpenGate;
use sample_games::expectations::same;
use std::alloc::Global;
use std::str::from_utf8;
use std::test::Fail;
use std::thread::Threads;
use stogame_app::Status;
use worked_rows::{COIN_LOOP, COIN_LOOP_REPORT, MOST_OF_COIN_LOOP, Row, runs, writes};

// The file is refused if it is cut after this many bytes, except if only the ending of the last line is missing.
fn cut_is_refused<R: Threads + Sync>(rt: &R, alloc: Global, length: usize) -> Result<(), Fail> {
    let bytes = COIN_LOOP.as_bytes().get(..length).unwrap_or(&[]);
    let Ok(tra) = from_utf8(bytes) else {
        return Err(Fail::new("the text is no UTF-8"));
    };
    let row = Row {
        tra,
        ..MOST_OF_COIN_LOOP
    };
    if length.saturating_add(1) >= COIN_LOOP.len() {
        return writes(rt, alloc, row, COIN_LOOP_REPORT, Status::Fine);
    }
    let (ended, _) = runs(rt, alloc, row, &OpenGate {})?;
    same(length, ended, Status::ModelRefused)
}

fn cuts_are_refused<R: Threads + Sync>(rt: &R, alloc: Global) -> Result<(), Fail> {
    for length in 0..=COIN_LOOP.len() {
        cut_is_refused(rt, alloc, length)?;
    }
    Ok(())
}

#[test]
fn a_transition_file_that_is_cut_is_refused(rt: HostRuntime) -> Result<(), Fail> {
    cuts_are_refused(&rt, rt.alloc())
}
