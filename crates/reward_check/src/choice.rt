//! This module checks a choice for each part of a certificate.

ghost use Rattle.std.specs.Prelude.{◌≡◌, ◌<◌, ◌↔◌, length, IsOk, IfErr};
ghost use Rattle.game_model.specs.Game.{choices_of};
ghost use Rattle.game_model.specs.Query.{states};
ghost use Rattle.reward_check.specs.declared.parts.Part.TheVariants.{Upper, Ranks, Lower, Infinite};
ghost use Rattle.reward_check.specs.Certificates.{said};
ghost use Rattle.reward_check.specs.Parts.{IsRight};
ghost use Rattle.reward_check.specs.Faults.{IsLackOf};

use crate::away::{lingers, sinks};
use crate::check::RewardCause;
use crate::parts::Part;
use crate::reward::{is_covered, is_paid};
use crate::successors::{leads_away, leads_down};
use crate::tables::RewardTables;

/// Checks a choice for a part.
pub fn check_choice(
    tables: &RewardTables<'_>,
    part: Part,
    state: u32,
    choice: u32,
) -> Result<(), RewardCause>
    requires state { state < states tables.now.question.now }
    requires choice { choice < length (choices_of tables.now.question.now.game state) }
    ensures ok { IsOk result ↔ IsRight part (said tables.now) state choice }
    ensures lack { IfErr result (IsLackOf part (said tables.now) state choice) }
{
    match part {
        Part::Upper => check_held(tables, state, choice),
        Part::Ranks => check_step(tables, state, choice),
        Part::Lower => check_paid(tables, state, choice),
        Part::Infinite => check_away(tables, state, choice),
    }
}

/// Checks that each successor has an upper value, and that the upper value of the state covers the choice.
fn check_held(tables: &RewardTables<'_>, state: u32, choice: u32) -> Result<(), RewardCause>
    requires state { state < states tables.now.question.now }
    requires choice { choice < length (choices_of tables.now.question.now.game state) }
    ensures ok { IsOk result ↔ IsRight Upper (said tables.now) state choice }
    ensures lack { IfErr result (IsLackOf Upper (said tables.now) state choice) }
{
    let question = tables.question;
    if leads_away(question, tables.bounded, state, choice) {
        return Err(RewardCause::Leaves { choice });
    }
    if !is_covered(question, tables.high, tables.upper, state, choice) {
        return Err(RewardCause::Above { choice });
    }
    Ok(())
}

/// Checks that some successor has a smaller rank.
fn check_step(tables: &RewardTables<'_>, state: u32, choice: u32) -> Result<(), RewardCause>
    requires state { state < states tables.now.question.now }
    requires choice { choice < length (choices_of tables.now.question.now.game state) }
    ensures ok { IsOk result ↔ IsRight Ranks (said tables.now) state choice }
    ensures lack { IfErr result (IsLackOf Ranks (said tables.now) state choice) }
{
    if !leads_down(tables.question, tables.ranks, state, choice) {
        return Err(RewardCause::NoStep { choice });
    }
    Ok(())
}

/// Checks that some successor has an infinite lower value, or that the choice pays the lower value of its state.
fn check_paid(tables: &RewardTables<'_>, state: u32, choice: u32) -> Result<(), RewardCause>
    requires state { state < states tables.now.question.now }
    requires choice { choice < length (choices_of tables.now.question.now.game state) }
    ensures ok { IsOk result ↔ IsRight Lower (said tables.now) state choice }
    ensures lack { IfErr result (IsLackOf Lower (said tables.now) state choice) }
{
    let question = tables.question;
    if leads_away(question, tables.finite, state, choice) {
        return Ok(());
    }
    if !is_paid(question, tables.low, tables.lower, state, choice) {
        return Err(RewardCause::Short { choice });
    }
    Ok(())
}

/// Checks that the choice sinks or lingers.
fn check_away(tables: &RewardTables<'_>, state: u32, choice: u32) -> Result<(), RewardCause>
    requires state { state < states tables.now.question.now }
    requires choice { choice < length (choices_of tables.now.question.now.game state) }
    ensures ok { IsOk result ↔ IsRight Infinite (said tables.now) state choice }
    ensures lack { IfErr result (IsLackOf Infinite (said tables.now) state choice) }
{
    let question = tables.question;
    if sinks(question, tables.finite, tables.ranks, state, choice) {
        return Ok(());
    }
    if !lingers(question, tables.finite, tables.ranks, state, choice) {
        return Err(RewardCause::Away { choice });
    }
    Ok(())
}
