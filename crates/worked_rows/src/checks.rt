//! These checks say what is expected of rows: what they write, and how they end.

use crate::rows::{Row, runs};
use game_outside::OpenGate;
use std::alloc::Global;
use std::fmt::{Display, InlineText};
use std::test::Fail;
use std::thread::Threads;
use stogame_app::Status;

// A message shows at most this many bytes of a text.
const SHOWN: usize = 160;

// Finds the beginning of the first line in which the texts differ.
fn differing_line(written: &[u8], expected: &[u8]) -> usize {
    let mut line = 0;
    for (place, (byte, other)) in written.iter().zip(expected.iter()).enumerate() {
        if byte != other {
            return line;
        }
        if *byte == b'\n' {
            line = place.saturating_add(1);
        }
    }
    line
}

// Shows a text from this byte on, cut if it is long.
fn shown(bytes: &[u8], from: usize) -> InlineText<{ SHOWN }> {
    let rest = bytes.get(from..).unwrap_or(&[]);
    InlineText::of(rest.escape_ascii())
}

/// A run ended with this status and wrote this text. Otherwise the failure says what it did instead, and `of` says
/// which run it is.
pub fn comes_to<D: Display + Drop>(
    of: D,
    ended: Status,
    written: &[u8],
    status: Status,
    text: &str,
) -> Result<(), Fail> {
    let expected = text.as_bytes();
    if ended == status && written == expected {
        return Ok(());
    }
    let from = differing_line(written, expected);
    let found = shown(written, from);
    let wanted = shown(expected, from);
    let (found, wanted) = (found.as_str(), wanted.as_str());
    Err(Fail::new(format_args!(
        "from byte {from} on '{found}' is written and '{wanted}' expected, it ends with {ended:?} and is to end with {status:?}: {of}"
    )))
}

/// A row over a shelf and a sink that never fail writes this text and ends with this status.
pub fn writes<R: Threads + Sync>(
    rt: &R,
    alloc: Global,
    row: Row<'_>,
    text: &str,
    status: Status,
) -> Result<(), Fail> {
    let (ended, written) = runs(rt, alloc, row, &OpenGate {})?;
    comes_to(row.formula, ended, &written, status, text)
}
