//! Files come in pieces of any size.

use std::alloc::Global;
use std::test::Fail;
use std::thread::Threads;
use stogame_app::Status;
use worked_rows::{
    AUDIT_OF_TWO_PLAYERS, CHECK_OF_AGREEMENT, CHECK_OF_COIN_LOOP, Case, Command, MOST_OF_COIN_LOOP,
    Outside, PLAN_OF_TWO_PLAYERS, Row, STATE_OUT_OF_RANGE, gives,
};

/// The lines of a chain end in CR and LF, and blank lines follow them.
const CHAIN_IN_CRLF: Case<'static> = Case {
    command: Command::Check(Row {
        tra: "3 4\r\n0 1 0.3\r\n0 2 0.7\r\n1 1 1\r\n2 2 1\r\n\r\n\r\n",
        ..MOST_OF_COIN_LOOP
    }),
    text: "state 0 lower 0.300000000000000 upper 0.300000000000000 rounds 2 Bracket\n",
    status: Status::Fine,
};

/// A line has an index that the header does not name.
const UNKNOWN_INDEX: Case<'static> = Case {
    command: Command::Check(Row {
        lab: "0=\"init\" 1=\"goal\"\n0: 0\n1: 7\n",
        ..MOST_OF_COIN_LOOP
    }),
    text: "refused lab line 3 UnknownIndex\n",
    status: Status::ModelRefused,
};

/// A case gives the same in pieces of each size.
pub(crate) fn gives_in_pieces<R: Threads + Sync>(
    rt: &R,
    alloc: Global,
    case: Case<'_>,
) -> Result<(), Fail> {
    for piece in [1, 7, 8, 4096, 5000] {
        let outside = Outside {
            piece,
            reads: &[],
            writes: &[],
        };
        gives(rt, alloc, case.command, outside, case.text, case.status)?;
    }
    Ok(())
}

const IN_PIECES: &[Case<'static>] = &[
    CHECK_OF_COIN_LOOP,
    CHECK_OF_AGREEMENT,
    PLAN_OF_TWO_PLAYERS,
    AUDIT_OF_TWO_PLAYERS,
    CHAIN_IN_CRLF,
    STATE_OUT_OF_RANGE,
    UNKNOWN_INDEX,
];

fn all_give_in_pieces<R: Threads + Sync>(rt: &R, alloc: Global) -> Result<(), Fail> {
    for case in IN_PIECES {
        gives_in_pieces(rt, alloc, *case)?;
    }
    Ok(())
}

#[test]
fn pieces_of_any_size_make_no_difference(rt: HostRuntime) -> Result<(), Fail> {
    all_give_in_pieces(&rt, rt.alloc())
}

// Each row has the size of a piece, and a call that fails.
const FAILING: [(u32, u64); 4] = [(1, 59), (7, 13), (8, 12), (4096, 6)];

// The transition file has 54 bytes, and one more call tells its end. The second piece of the label file fails, or its
// end.
fn failing_labels_write_nothing<R: Threads + Sync>(rt: &R, alloc: Global) -> Result<(), Fail> {
    for (piece, call) in FAILING {
        let outside = Outside {
            piece,
            reads: &[call],
            writes: &[],
        };
        let command = CHECK_OF_COIN_LOOP.command;
        gives(rt, alloc, command, outside, "", Status::ReadFault)?;
    }
    Ok(())
}

#[test]
fn a_label_file_that_fails_writes_nothing(rt: HostRuntime) -> Result<(), Fail> {
    failing_labels_write_nothing(&rt, rt.alloc())
}
