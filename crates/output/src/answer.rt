//! This module makes what a run writes, and how it ends then: a line for each initial state, and the status of the
//! lines.

ghost use Rattle.std.specs.Prelude.{◌≡◌, ◌≤◌, ◌<◌, All, IfOk, length, map};
ghost use Rattle.std.specs.List.{list_any};
ghost use Rattle.game_model.specs.Limits.{unit};
ghost use Rattle.verdicts.specs.Report.{HasValues, report};
ghost use Rattle.output.specs.Printed.{is_mirrored, line_of, status_of};
ghost use Rattle.verdicts.specs.Verdict.{is_no, is_undecided};
ghost use Rattle.output.specs.Status.{IsAnswer};

use crate::status::Status;
use formula_reader::{Bound, Formula, PathKind};
use game_model::UNIT;
use game_outside::OutOfMemory;
use std::alloc::Global;
use verdicts::{How, ReportLine, report_text, settle};

/// This is what a run writes, and how it ends then.
#[derive(Drop)]
pub struct Answer {
    /// The run writes this text.
    pub text: Vec<u8>,
    /// The run ends with this status.
    pub status: Status,
}

/// Reports on some states: one line for each, with the bounds that two tables have, in units, and what these say of a
/// bound. If the tables are mirrored, they are those of the dual of `G`, and 1 less their bounds is printed. The only
/// error is that memory ran out.
pub fn report_of(
    alloc: Global,
    mirrored: bool,
    bound: &Bound,
    how: How,
    lower: &[u64],
    upper: &[u64],
    states: &[u32],
) -> Result<Answer, OutOfMemory>
    requires inside { All (λ s. s < length lower.now) states.now }
    requires as_many { length upper.now ≡ length lower.now }
    requires lower { All (λ v. v ≤ unit) lower.now }
    requires upper { All (λ v. v ≤ unit) upper.now }
    ensures text { IfOk result (λ answer. answer.text.items ≡ report
        (map (line_of mirrored bound.now how lower.now upper.now) states.now)) }
    ensures status { IfOk result (λ answer. answer.status ≡ status_of
        (map (line_of mirrored bound.now how lower.now upper.now) states.now)) }
    ensures answer { IfOk result (λ answer. IsAnswer answer.status) }
{
    let lines = lines_of(alloc, mirrored, bound, how, lower, upper, states)?;
    let text = report_text(alloc, &lines)?;
    Ok(Answer {
        text,
        status: status_of(&lines),
    })
}

/// Returns whether the tables of a formula are those of its dual, whose bounds are mirrored when they are printed.
pub fn is_mirrored(formula: &Formula) -> bool
    ensures { result ≡ is_mirrored formula.now.kind }
{
    match formula.kind {
        PathKind::Always => true,
        PathKind::Until | PathKind::Within(_) | PathKind::Next => false,
    }
}

// Makes the lines of some states.
fn lines_of(
    alloc: Global,
    mirrored: bool,
    bound: &Bound,
    how: How,
    lower: &[u64],
    upper: &[u64],
    states: &[u32],
) -> Result<Vec<ReportLine>, OutOfMemory>
    requires inside { All (λ s. s < length lower.now) states.now }
    requires as_many { length upper.now ≡ length lower.now }
    requires lower { All (λ v. v ≤ unit) lower.now }
    requires upper { All (λ v. v ≤ unit) upper.now }
    ensures lines { IfOk result (λ lines. lines.items ≡ map (line_of mirrored bound.now how lower.now upper.now)
        states.now) }
    ensures values { IfOk result (λ lines. All HasValues lines.items) }
{
    let lines = states
        .iter()
        .map(|state| line_of(mirrored, bound, how, lower, upper, *state))
        .collect(alloc)?;
    Ok(lines)
}

// Makes the line of a state from its entries in the tables.
fn line_of(
    mirrored: bool,
    bound: &Bound,
    how: How,
    lower: &[u64],
    upper: &[u64],
    state: u32,
) -> ReportLine
    requires inside { state < length lower.now }
    requires as_many { length upper.now ≡ length lower.now }
    requires lower { All (λ v. v ≤ unit) lower.now }
    requires upper { All (λ v. v ≤ unit) upper.now }
    ensures line { result ≡ line_of mirrored bound.now how lower.now upper.now state }
    ensures values { HasValues result }
{
    let low = lower[state as usize];
    let high = upper[state as usize];
    let (lower, upper) = if mirrored {
        (UNIT - high, UNIT - low)
    } else {
        (low, high)
    };
    ReportLine {
        state,
        lower,
        upper,
        how,
        verdict: settle(bound, lower, upper),
    }
}

// Returns the status of a report: `SomeFalse` if some line is False, else `SomeUndecided` if some line is Undecided,
// and else `Fine`.
fn status_of(lines: &[ReportLine]) -> Status
    ensures status { result ≡ status_of lines.now }
    ensures answer { IsAnswer result }
{
    if is_some_false(lines) {
        Status::SomeFalse
    } else if is_some_undecided(lines) {
        Status::SomeUndecided
    } else {
        Status::Fine
    }
}

fn is_some_false(lines: &[ReportLine]) -> bool
    ensures { result ≡ list_any (λ line. is_no line.verdict) lines.now }
{
    lines.iter().any(|line| line.verdict.is_no())
}

fn is_some_undecided(lines: &[ReportLine]) -> bool
    ensures { result ≡ list_any (λ line. is_undecided line.verdict) lines.now }
{
    lines.iter().any(|line| line.verdict.is_undecided())
}
