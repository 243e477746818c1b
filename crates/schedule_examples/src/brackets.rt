//! These are worked brackets.

ghost use Rattle.std.specs.Prelude.{◌≤◌};
ghost use Rattle.round_workers.specs.Share.{most_workers};
ghost use Rattle.bracket_engine.specs.Limits.{most_rounds};

use bracket_engine::{Bracket, bracket};
use game_model::{Question, Side, UNIT};
use game_outside::{Gate, HoldGate, OpenGate};
use rpatl_syntax::Bound;
use sample_games::expectations::{holds, same};
use sample_games::{coin_loop, four_states, question_of, question_with_minimiser_at};
use std::alloc::Global;
use std::test::Fail;
use std::thread::Threads;
use verdicts::{StopRule, settle};
use zero_sets::zero_set;

/// Computes the bracket of a question that asks for the value at state 0.
pub(crate) fn value_bracket<R: Threads + Sync, G: Gate + Sync>(
    rt: &R,
    alloc: Global,
    question: &Question<'_>,
    rounds: u32,
    workers: u32,
    gate: &G,
) -> Result<Bracket, Fail>
    requires rounds { rounds ≤ most_rounds }
    requires some { 1 ≤ workers }
    requires few { workers ≤ most_workers }
{
    question.invariant();
    let zero = zero_set(alloc, question)?;
    let stop = StopRule::of_bound(Bound::AskMax, |lower, upper| {
        settle(&Bound::AskMax, lower, upper).is_settling()
    });
    Ok(bracket(
        rt,
        alloc,
        question,
        &zero,
        rounds,
        workers,
        &stop,
        &[0],
        gate,
    )?)
}

#[test]
fn the_coin_loop_settles_at_round_50(rt: HostRuntime) -> Result<(), Fail> {
    let alloc = rt.alloc();
    let game = coin_loop(alloc)?;
    check_coin_loop(&rt, alloc, &question_of(alloc, &game, Side::Max, 1)?)
}

/// The coin loop has these values after at most this many rounds.
fn check_coin_loop<R: Threads + Sync>(
    rt: &R,
    alloc: Global,
    question: &Question<'_>,
) -> Result<(), Fail> {
    for (asked, base, lower, upper, end) in &[
        (0, 0, 4, 562_949_953_421_312, (0, false)),
        (
            2,
            UNIT / 8 * 3,
            UNIT / 8 * 3 + 4,
            515_737_488_355_328,
            (2, false),
        ),
        (49, UNIT / 2 - 1, UNIT / 2, UNIT / 2, (49, true)),
        (1_000, UNIT / 2 - 1, UNIT / 2, UNIT / 2, (50, true)),
    ] {
        let entries = (*base, *lower, *upper);
        check_rounds(rt, alloc, question, *asked, entries, *end)?;
    }
    Ok(())
}

/// After at most this many rounds, the coin loop has this base and these bounds at state 0, took these rounds, and has
/// settled or not.
fn check_rounds<R: Threads + Sync>(
    rt: &R,
    alloc: Global,
    question: &Question<'_>,
    asked: u32,
    entries: (u64, u64, u64),
    end: (u32, bool),
) -> Result<(), Fail>
    requires { asked ≤ most_rounds }
{
    let found = value_bracket(rt, alloc, question, asked, 1, &OpenGate {})?;
    same(
        asked,
        (
            found.base.as_slice(),
            found.plan.lower.as_slice(),
            found.plan.upper.as_slice(),
            (found.rounds, found.stable),
        ),
        (
            [entries.0, UNIT, 0].as_slice(),
            [entries.1, UNIT, 0].as_slice(),
            [entries.2, UNIT, 0].as_slice(),
            end,
        ),
    )
}

#[test]
fn the_first_player_chooses_the_better_lottery(rt: HostRuntime) -> Result<(), Fail> {
    for workers in &[1, 2, 3, 64] {
        check_lotteries(&rt, rt.alloc(), *workers)?;
    }
    Ok(())
}

/// Two players in the game of four states have these values, this choice and this reply.
fn check_lotteries<R: Threads + Sync>(rt: &R, alloc: Global, workers: u32) -> Result<(), Fail>
    requires some { 1 ≤ workers }
    requires few { workers ≤ most_workers }
{
    let found = lottery_bracket(rt, alloc, workers)?;
    let values = [UNIT / 100 * 65, UNIT / 5, UNIT, 0];
    same(
        workers,
        (
            found.plan.lower.as_slice(),
            found.plan.upper.as_slice(),
            found.plan.choices.as_slice(),
            found.plan.replies.as_slice(),
            found.stable,
        ),
        (
            values.as_slice(),
            values.as_slice(),
            [Some(1), None, None, None].as_slice(),
            [None, Some(1), None, None].as_slice(),
            true,
        ),
    )
}

// Computes the bracket of two players in the game of four states, where the goal is state 2.
fn lottery_bracket<R: Threads + Sync>(rt: &R, alloc: Global, workers: u32) -> Result<Bracket, Fail>
    requires some { 1 ≤ workers }
    requires few { workers ≤ most_workers }
{
    let game = four_states(alloc)?;
    let question = question_with_minimiser_at(alloc, &game, 1, 2)?;
    value_bracket(rt, alloc, &question, 1_000, workers, &OpenGate {})
}

#[test]
fn two_workers_run_at_once(rt: HostRuntime) -> Result<(), Fail> {
    let gate = HoldGate::new();
    same("rounds", rounds_through(&rt, rt.alloc(), &gate)?, 10)?;
    holds("the workers ran at once", !gate.gave_up())
}

// Counts how many of ten rounds of the coin loop two workers make.
fn rounds_through<R: Threads + Sync>(rt: &R, alloc: Global, gate: &HoldGate) -> Result<u32, Fail> {
    let game = coin_loop(alloc)?;
    let question = question_of(alloc, &game, Side::Max, 1)?;
    Ok(value_bracket(rt, alloc, &question, 10, 2, gate)?.rounds)
}
