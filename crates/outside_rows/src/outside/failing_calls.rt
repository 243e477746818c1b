//! Every call of the shelf and of the sink fails in turn.

use crate::outside::commands::commands;
use sample_games::expectations::same;
use std::alloc::Global;
use std::test::Fail;
use std::thread::Threads;
use stogame_app::Status;
use worked_rows::{
    CHECK_OF_COIN_LOOP, COIN_LOOP_OUT_OF_ORDER, Case, DRAWN_GAME, Ended, NO_COMMAND, Outside, STEP,
    ends_over,
};

/// No command makes this many calls.
const MOST_CALLS: u64 = 1000;

// A run without a fault gives what the case says.
fn is_whole(case: &Case<'_>, ended: &Ended) -> Result<(), Fail> {
    same(
        case.text,
        (ended.status, ended.written.as_slice()),
        (case.status, case.text.as_bytes()),
    )
}

// Says how a case ends if one call of the shelf fails.
fn with_read_fault<R: Threads + Sync>(
    rt: &R,
    alloc: Global,
    case: &Case<'_>,
    call: u64,
) -> Result<Ended, Fail> {
    let outside = Outside {
        piece: 8,
        reads: &[call],
        writes: &[],
    };
    ends_over(rt, alloc, case.command, outside)
}

// A run writes nothing if a call of the shelf fails. The result is the number of calls of a run without a fault.
fn each_reading_fails<R: Threads + Sync>(
    rt: &R,
    alloc: Global,
    case: &Case<'_>,
) -> Result<u64, Fail> {
    for call in 1..MOST_CALLS {
        let ended = with_read_fault(rt, alloc, case, call)?;
        if ended.read_faults == 0 {
            is_whole(case, &ended)?;
            return Ok(call - 1);
        }
        let found = (ended.status, ended.written.len());
        same(call, found, (Status::ReadFault, 0))?;
    }
    Err(Fail::new("each run has a fault"))
}

// Says how a case ends if one call of the sink fails.
fn with_write_fault<R: Threads + Sync>(
    rt: &R,
    alloc: Global,
    case: &Case<'_>,
    call: u64,
) -> Result<Ended, Fail> {
    let outside = Outside {
        piece: 8,
        reads: &[],
        writes: &[call],
    };
    ends_over(rt, alloc, case.command, outside)
}

// This many bytes of the text of a case were written before a write failed.
fn is_front(case: &Case<'_>, ended: &Ended, taken: usize) -> Result<(), Fail> {
    let starts = case.text.as_bytes().starts_with(&ended.written);
    let found = (ended.status, ended.written.len(), starts);
    same(case.text, found, (Status::WriteFault, taken, true))
}

// If a call of the sink fails, the run leaves what the earlier calls took, whatever its status would have been.
fn each_writing_fails<R: Threads + Sync>(
    rt: &R,
    alloc: Global,
    case: &Case<'_>,
) -> Result<(), Fail> {
    for call in 1..MOST_CALLS {
        let ended = with_write_fault(rt, alloc, case, call)?;
        if ended.write_faults == 0 {
            return is_whole(case, &ended);
        }
        is_front(case, &ended, (call as usize - 1) * STEP)?;
    }
    Err(Fail::new("each run has a fault"))
}

#[test]
fn a_shelf_that_fails_leaves_nothing_written(rt: HostRuntime) -> Result<(), Fail> {
    for (case, _names) in commands() {
        let _calls = each_reading_fails(&rt, rt.alloc(), case)?;
    }
    Ok(())
}

// In pieces of 8 bytes the transition file, of 54 bytes, takes 9 calls with its beginning and its end, and the label
// file takes 6.
#[test]
fn a_file_out_of_order_fails_in_each_call_of_both_readings(rt: HostRuntime) -> Result<(), Fail> {
    for (case, calls) in [
        (CHECK_OF_COIN_LOOP, 9 + 6),
        (COIN_LOOP_OUT_OF_ORDER, 2 * 9 + 6),
        (DRAWN_GAME, 0),
        (NO_COMMAND, 0),
    ] {
        same(
            case.text,
            each_reading_fails(&rt, rt.alloc(), &case)?,
            calls,
        )?;
    }
    Ok(())
}

#[test]
fn a_sink_that_fails_leaves_a_front_of_the_text(rt: HostRuntime) -> Result<(), Fail> {
    for (case, _names) in commands() {
        each_writing_fails(&rt, rt.alloc(), case)?;
    }
    Ok(())
}
