//! The lines of a report have the values that tables have for some states.

ghost use Rattle.std.specs.Prelude.{◌≡◌, ◌<◌, ◌≤◌, All, IfOk, length, map, slice_index};
ghost use Rattle.std.specs.List.{list_any};
ghost use Rattle.game_model.specs.Limits.{unit};
ghost use Rattle.game_model.specs.Query.{states};
ghost use Rattle.reward_check.specs.Certificates.{said};
ghost use Rattle.reward_units.specs.Units.{most_places};
ghost use Rattle.reward_values.specs.Values.{IsValue};
ghost use Rattle.verdicts.specs.Verdict.{is_no, is_undecided};
ghost use Rattle.output.specs.Status.{IsAnswer};
ghost use Rattle.reward_reports.specs.Printed.{value_at, reward_line_of, reward_lines_of, reward_status_of};

use game_outside::OutOfMemory;
use output::Status;
use reward_check::RewardTables;
use reward_formula::RewardBound;
use reward_verdicts::{RewardLine, settle_reward};
use std::alloc::Global;
use verdicts::How;

/// Makes the lines of the listed states, in their order. The only error is that memory ran out.
pub fn lines_of(
    alloc: Global,
    tables: &RewardTables<'_>,
    places: u32,
    bound: &RewardBound,
    how: How,
    listed: &[u32],
) -> Result<Vec<RewardLine>, OutOfMemory>
    requires places { places ≤ most_places }
    requires inside { All (λ s. s < states tables.now.question.now) listed.now }
    ensures { IfOk result (λ lines. lines.items ≡ reward_lines_of bound.now how places (said tables.now) listed.now) }
{
    let mut lines = Vec::with_capacity(alloc, listed.len())?;
    for state in listed {
        lines.push(line_of(tables, places, bound, how, *state))?;
    }
    Ok(lines)
}

/// Makes the line of a state.
fn line_of(
    tables: &RewardTables<'_>,
    places: u32,
    bound: &RewardBound,
    how: How,
    state: u32,
) -> RewardLine
    requires places { places ≤ most_places }
    requires inside { state < states tables.now.question.now }
    ensures { result ≡ reward_line_of bound.now how places (said tables.now) state }
{
    let lower = value_at(tables.finite, tables.lower, state);
    let upper = value_at(tables.bounded, tables.upper, state);
    RewardLine {
        state,
        lower,
        upper,
        how,
        verdict: settle_reward(bound, places, lower, upper),
    }
}

/// Returns the entry of a state, or none where the marks say that its value is no number.
fn value_at(marks: &[bool], values: &[u64], state: u32) -> Option<u64>
    requires marked { state < length marks.now }
    requires inside { state < length values.now }
    requires units { All (λ v. v ≤ unit) values.now }
    ensures value { result ≡ value_at marks.now (slice_index values.now) state }
    ensures small { IsValue result }
{
    if marks[state as usize] {
        Some(values[state as usize])
    } else {
        None
    }
}

/// Returns the status of a report: `SomeFalse` if some line is False, else `SomeUndecided` if some line is Undecided,
/// and else `Fine`.
pub fn status_of(lines: &[RewardLine]) -> Status
    ensures status { result ≡ reward_status_of lines.now }
    ensures answer { IsAnswer result }
{
    if is_some_false(lines) {
        Status::SomeFalse
    } else if is_some_undecided(lines) {
        Status::SomeUndecided
    } else {
        Status::Fine
    }
}

fn is_some_false(lines: &[RewardLine]) -> bool
    ensures { result ≡ list_any (λ line. is_no line.verdict) lines.now }
{
    lines.iter().any(|line| line.verdict.is_no())
}

fn is_some_undecided(lines: &[RewardLine]) -> bool
    ensures { result ≡ list_any (λ line. is_undecided line.verdict) lines.now }
{
    lines.iter().any(|line| line.verdict.is_undecided())
}
