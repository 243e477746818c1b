//! These are commands over rows. They are run over files that come in pieces, or with calls that fail.

ghost use Rattle.std.specs.Prelude.{◌<◌};

use crate::asked::{
    CERTIFICATE, VALUES, audit_words, check_words, files_with, solve_words, sure_words,
};
use crate::checks::comes_to;
use crate::rows::{Row, files, words};
use game_outside::{HeldFile, MemShelf, MemSink, OpenGate};
use std::alloc::Global;
use std::test::Fail;
use std::thread::Threads;
use stogame_app::{Status, run};

/// The sink takes this many bytes at once.
pub const STEP: usize = 7;

/// A command is the check of a row, the audit of a certificate for the model and the formula of a row, the solution of
/// a row, from values if there are any, its almost-sure states, or words that name no file.
#[derive(Clone, Copy)]
pub enum Command<'a> {
    Check(Row<'a>),
    Audit(Row<'a>, &'a str),
    Solve(Row<'a>, Option<&'a str>),
    Sure(Row<'a>),
    Words(&'a [&'a str]),
}

impl<'a> Command<'a> {
    /// Names the command in a message by its kind and its formula, or by its last word if the words name no file.
    pub fn title(self) -> (&'a str, &'a str) {
        match self {
            Command::Check(row) => ("check", row.formula),
            Command::Audit(row, _) => ("audit", row.formula),
            Command::Solve(row, _) => ("solve", row.formula),
            Command::Sure(row) => ("sure", row.formula),
            Command::Words(given) => ("words up to", given.last().copied().unwrap_or("")),
        }
    }

    /// Returns the same command with another formula.
    pub fn asked(self, formula: &'a str) -> Command<'a> {
        match self {
            Command::Check(row) => Command::Check(row.asked(formula)),
            Command::Audit(row, certificate) => Command::Audit(row.asked(formula), certificate),
            Command::Solve(row, values) => Command::Solve(row.asked(formula), values),
            Command::Sure(row) => Command::Sure(row.asked(formula)),
            Command::Words(given) => Command::Words(given),
        }
    }

    /// Makes the words of the command.
    pub fn words(self, alloc: Global) -> Result<Vec<String>, Fail> {
        match self {
            Command::Check(row) => check_words(alloc, row),
            Command::Audit(row, _) => audit_words(alloc, row),
            Command::Solve(row, values) => solve_words(alloc, row, values),
            Command::Sure(row) => sure_words(alloc, row),
            Command::Words(given) => words(alloc, given),
        }
    }

    /// Makes the files that the words name.
    pub fn files(self, alloc: Global) -> Result<Vec<HeldFile>, Fail> {
        match self {
            Command::Check(row) | Command::Sure(row) => files(alloc, row),
            Command::Audit(row, certificate) => files_with(
                alloc,
                row,
                CERTIFICATE,
                Some(certificate),
            ),
            Command::Solve(row, values) => files_with(alloc, row, VALUES, values),
            Command::Words(_) => Ok(Vec::new(alloc)),
        }
    }
}

/// The shelf gives pieces of at most this many bytes, and these calls of the shelf and of the sink fail.
#[derive(Clone, Copy)]
pub struct Outside<'a> {
    pub piece: u32,
    pub reads: &'a [u64],
    pub writes: &'a [u64],
}

/// This says how a command ended, what it wrote, and how many calls failed.
#[derive(Drop)]
pub struct Ended {
    pub status: Status,
    pub written: Vec<u8>,
    pub read_faults: u64,
    pub write_faults: u64,
}

/// Runs a command and says how it ends.
pub fn ends_over<R: Threads + Sync>(
    rt: &R,
    alloc: Global,
    command: Command<'_>,
    outside: Outside<'_>,
) -> Result<Ended, Fail>
    requires { 0 < outside.piece }
{
    let given = command.words(alloc)?;
    let mut shelf = MemShelf::new(
        command.files(alloc)?,
        outside.piece,
        outside.reads.to_vec(alloc)?,
    );
    let mut out = MemSink::new(alloc, STEP as u32, outside.writes.to_vec(alloc)?);
    if out.reserve(1000).is_err() {
        return Err(Fail::new("no memory"));
    }
    let status = run(rt, alloc, &given, &mut shelf, &mut out, &OpenGate {});
    let Some(written) = out.bytes() else {
        return Err(Fail::new("the text is lost"));
    };
    Ok(Ended {
        status,
        written: written.to_vec(alloc)?,
        read_faults: shelf.fault_count(),
        write_faults: out.fault_count(),
    })
}

/// A command writes this text and ends with this status.
pub fn gives<R: Threads + Sync>(
    rt: &R,
    alloc: Global,
    command: Command<'_>,
    outside: Outside<'_>,
    text: &str,
    status: Status,
) -> Result<(), Fail>
    requires { 0 < outside.piece }
{
    let ended = ends_over(rt, alloc, command, outside)?;
    let piece = outside.piece;
    comes_to(
        format_args!("pieces of {piece}"),
        ended.status,
        &ended.written,
        status,
        text,
    )
}
