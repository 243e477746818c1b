//! This module makes the report of a certificate.

ghost use Rattle.std.specs.Prelude.{◌≡◌, ◌<◌, ◌≤◌, All, IfOk};
ghost use Rattle.game_model.specs.Query.{states};
ghost use Rattle.reward_check.specs.Certificates.{said};
ghost use Rattle.reward_check.specs.Parts.{IsAccepted};
ghost use Rattle.reward_units.specs.declared.rounded.Rounding.TheVariants.{Down, Up};
ghost use Rattle.reward_units.specs.Rounded.{exact_in, paid_units, ArePaidUnits};
ghost use Rattle.reward_units.specs.Units.{most_places};
ghost use Rattle.verdicts.specs.Report.{HasCount};
ghost use Rattle.reward_verdicts.specs.Report.{reward_report};
ghost use Rattle.output.specs.Status.{IsAnswer};
ghost use Rattle.reward_reports.specs.Printed.{reward_lines_of, reward_status_of};
ghost use Rattle.reward_reports.specs.Reports.{IsRewardReport};

use crate::laws::{accepted_bounds_are_in_order, undecided_rewards_are_left_open};
use crate::lines::{lines_of, status_of};
use game_outside::OutOfMemory;
use output::Answer;
use reward_check::RewardTables;
use reward_formula::RewardBound;
use reward_units::laws::{accepted_bounds_are_exact, rewards_of_a_file_have_a_denominator};
use reward_verdicts::laws::reward_verdicts_are_right;
use reward_verdicts::reward_report_text;
use rewards_reader::RewardTable;
use std::alloc::Global;
use verdicts::How;

/// Reports on some states: one line for each, with the values that the tables of a certificate have, in units of so
/// many places, and what these say of a bound. The only error is that memory ran out.
pub fn report_rewards(
    alloc: Global,
    tables: &RewardTables<'_>,
    places: u32,
    bound: &RewardBound,
    how: How,
    initial: &[u32],
) -> Result<Answer, OutOfMemory>
    requires places { places ≤ most_places }
    requires inside { All (λ s. s < states tables.now.question.now) initial.now }
    ensures text { IfOk result (λ answer. answer.text.items ≡ reward_report places
        (reward_lines_of bound.now how places (said tables.now) initial.now)) }
    ensures status { IfOk result (λ answer. answer.status ≡ reward_status_of
        (reward_lines_of bound.now how places (said tables.now) initial.now)) }
    ensures answer { IfOk result (λ answer. IsAnswer answer.status) }
{
    let lines = lines_of(alloc, tables, places, bound, how, initial)?;
    let text = reward_report_text(alloc, places, &lines)?;
    Ok(Answer {
        text,
        status: status_of(&lines),
    })
}

/// Reports on some states of a certificate that was accepted. Its rewards have to be those of the file, in units of so
/// many places, rounded down in the lower table and rounded up in the upper one. The rewards of the file are named for
/// the contract alone. The only error is that memory ran out.
pub fn reward_report_of(
    alloc: Global,
    tables: &RewardTables<'_>,
    rewards: &RewardTable,
    places: u32,
    bound: &RewardBound,
    how: How,
    initial: &[u32],
) -> Result<Answer, OutOfMemory>
    requires places { places ≤ most_places }
    requires inside { All (λ s. s < states tables.now.question.now) initial.now }
    requires low { let game = tables.now.question.now.game in
        ArePaidUnits game (paid_units Down (exact_in game rewards.now) places) tables.now.low.now }
    requires high { let game = tables.now.question.now.game in
        ArePaidUnits game (paid_units Up (exact_in game rewards.now) places) tables.now.high.now }
    requires accepted { IsAccepted (said tables.now) }
    ensures report { IfOk result (λ answer. IsRewardReport tables.now.question.now
        (exact_in tables.now.question.now.game rewards.now) initial.now bound.now how places (said tables.now)
        answer.text.items answer.status) }
    ensures answer { IfOk result (λ answer. IsAnswer answer.status) }
{
    // These calls do nothing: they recall what numbers a line may name, that the rewards are amounts, and five laws.
    known_count(how);
    rewards.invariant();
    rewards_of_a_file_have_a_denominator();
    accepted_bounds_are_exact();
    accepted_bounds_are_in_order();
    reward_verdicts_are_right();
    undecided_rewards_are_left_open();
    report_rewards(alloc, tables, places, bound, how, initial)
}

// The type of a number of rounds or steps keeps it below 2^32.
fn known_count(how: How)
    ensures { HasCount how }
{
    match how {
        How::Rounds(_) | How::Steps(_) | How::Audited | How::Solved => {}
    }
}
