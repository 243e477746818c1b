//! These are commands over a shelf and a sink that never fail, and tables of them. Each writes what its row says.

use crate::checks::comes_to;
use crate::{Case, Command, Row, ends, writes};
use game_outside::{OpenGate, SteadyShelf};
use std::alloc::Global;
use std::str::from_utf8;
use std::test::Fail;
use std::thread::Threads;
use stogame_app::Status;

/// An answer has a formula, the end of the text that it gives, and how the command ends.
pub type Answer<'a> = (&'a str, &'a str, Status);

/// An audited row has a command that prints a certificate, the row for which the certificate is audited, and the text
/// and the end of the audit.
pub type Audited<'a> = (Command<'a>, Row<'a>, &'a str, Status);

// Runs a command over a shelf and a sink that never fail, and says how it ends and what it writes.
fn printed<R: Threads + Sync>(
    rt: &R,
    alloc: Global,
    command: Command<'_>,
) -> Result<(Status, Vec<u8>), Fail> {
    let words = command.words(alloc)?;
    let mut shelf = SteadyShelf::new(command.files(alloc)?);
    ends(rt, alloc, &words, &mut shelf, &OpenGate {})
}

/// The command over a shelf and a sink that never fail writes this text and ends with this status.
pub fn prints<R: Threads + Sync>(
    rt: &R,
    alloc: Global,
    command: Command<'_>,
    text: &str,
    status: Status,
) -> Result<(), Fail> {
    let (ended, written) = printed(rt, alloc, command)?;
    let (name, question) = command.title();
    comes_to(
        format_args!("{name} {question}"),
        ended,
        &written,
        status,
        text,
    )
}

/// The row is refused with this line.
pub fn refuses<R: Threads + Sync>(
    rt: &R,
    alloc: Global,
    row: Row<'_>,
    text: &str,
) -> Result<(), Fail> {
    writes(rt, alloc, row, text, Status::ModelRefused)
}

/// The certificate is refused with this line and cause.
pub fn audit_refuses<R: Threads + Sync>(
    rt: &R,
    alloc: Global,
    row: Row<'_>,
    certificate: &str,
    cause: &str,
) -> Result<(), Fail> {
    let text = format!(in alloc; "refused cert line {cause}\n")?;
    let refused = Status::CertificateRefused;
    prints(
        rt,
        alloc,
        Command::Audit(row, certificate),
        text.as_str(),
        refused,
    )
}

/// Each case over a shelf and a sink that never fail writes its text and ends with its status.
pub fn all_write<R: Threads + Sync>(rt: &R, alloc: Global, cases: &[Case<'_>]) -> Result<(), Fail> {
    for case in cases {
        prints(rt, alloc, case.command, case.text, case.status)?;
    }
    Ok(())
}

/// The command, asked each of these formulas in place of its own, writes this front, the end that the row of the
/// formula has, and LF.
pub fn answers_write<R: Threads + Sync>(
    rt: &R,
    alloc: Global,
    command: Command<'_>,
    front: &str,
    answers: &[Answer<'_>],
) -> Result<(), Fail> {
    for (formula, end, status) in answers {
        let text = format!(in alloc; "{front}{end}\n")?;
        prints(rt, alloc, command.asked(formula), text.as_str(), *status)?;
    }
    Ok(())
}

// The audit of what was printed, for this row, writes this text and ends with this status.
fn audit_prints<R: Threads + Sync>(
    rt: &R,
    alloc: Global,
    row: Row<'_>,
    written: &[u8],
    text: &str,
    status: Status,
) -> Result<(), Fail> {
    let Ok(certificate) = from_utf8(written) else {
        return Err(Fail::new("the text is no UTF-8"));
    };
    prints(rt, alloc, Command::Audit(row, certificate), text, status)
}

/// What each of these commands prints is audited for the row beside it, and gives the text and the end that follow.
pub fn printed_are_audited<R: Threads + Sync>(
    rt: &R,
    alloc: Global,
    table: &[Audited<'_>],
) -> Result<(), Fail> {
    for (command, row, text, status) in table {
        let (_, written) = printed(rt, alloc, *command)?;
        audit_prints(rt, alloc, *row, &written, text, *status)?;
    }
    Ok(())
}
