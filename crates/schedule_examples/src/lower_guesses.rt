//! These are worked plans and lower guesses.

ghost use Rattle.std.specs.Prelude.{◌≡◌, length, IfOk};
ghost use Rattle.game_model.specs.Query.{states};
ghost use Rattle.game_model.specs.Ranks.{Ranked};

use game_model::{Game, Question, Side, UNIT};
use lower_guess::{LowerGuess, lower_guess};
use rank_certificate::{RankPlan, rank_table};
use sample_games::expectations::{holds, same};
use sample_games::{chain, coin_loop, question_of};
use std::alloc::Global;
use std::test::Fail;
use zero_sets::zero_set;

const HALF: u64 = UNIT / 2;

/// Makes a plan of the maximiser for values that have one.
fn plan_of(alloc: Global, question: &Question<'_>, values: &[u64]) -> Result<RankPlan, Fail>
    requires { length values.now ≡ states question.now }
    ensures many { IfOk result (λ plan. length plan.choices.items ≡ states question.now) }
    ensures ranked { IfOk result (λ plan. Ranked question.now values.now plan.choices.items plan.ranks.items) }
{
    match rank_table(alloc, question, values)? {
        Some(plan) => Ok(plan),
        None => Err(Fail::new("no plan")),
    }
}

/// The plan for these values has these choices and ranks.
fn check_plan(
    alloc: Global,
    question: &Question<'_>,
    values: &[u64; 4],
    choices: &[Option<u32>; 4],
    ranks: &[u32; 4],
) -> Result<(), Fail>
    requires { states question.now ≡ 4 }
{
    let plan = plan_of(alloc, question, values)?;
    same(
        "choices and ranks",
        (plan.choices.as_slice(), plan.ranks.as_slice()),
        (choices.as_slice(), ranks.as_slice()),
    )
}

/// These values of a chain have no plan.
const WITHOUT_A_PLAN: &[[u64; 4]] = &[
    [UNIT + 1, UNIT, UNIT, UNIT],
    [UNIT, UNIT, UNIT, UNIT - 1],
    [UNIT, UNIT, UNIT - 1, UNIT],
];

#[test]
fn a_chain_has_a_layer_and_a_choice_for_each_state(rt: HostRuntime) -> Result<(), Fail> {
    let alloc = rt.alloc();
    let game = chain(alloc, 4)?;
    check_chain(alloc, &question_of(alloc, &game, Side::Max, 3)?)
}

/// The chain has this plan, and these values have none.
fn check_chain(alloc: Global, question: &Question<'_>) -> Result<(), Fail>
    requires { states question.now ≡ 4 }
{
    let choices = [Some(0), Some(0), Some(0), None];
    check_plan(alloc, question, &[UNIT; 4], &choices, &[3, 2, 1, 0])?;
    for values in WITHOUT_A_PLAN {
        holds("no plan", rank_table(alloc, question, values)?.is_none())?;
    }
    Ok(())
}

/// The goal is state 1. The lower guess from this value of state 0 has this value and this choice at state 0.
fn check_guess(
    alloc: Global,
    question: &Question<'_>,
    value: u64,
    wanted: u64,
    choice: u32,
) -> Result<(), Fail>
    requires { states question.now ≡ 3 }
{
    let found = guess_of(alloc, question, &[value, UNIT, 0])?;
    same(
        value,
        (
            found.values.as_slice(),
            found.plan.choices.as_slice(),
            found.plan.ranks.as_slice(),
        ),
        (
            [wanted, UNIT, 0].as_slice(),
            [Some(choice), None, None].as_slice(),
            [1, 0, 0].as_slice(),
        ),
    )
}

/// Makes the lower guess over this table by a plan for it.
fn guess_of(alloc: Global, question: &Question<'_>, base: &[u64]) -> Result<LowerGuess, Fail>
    requires { length base.now ≡ states question.now }
{
    let plan = plan_of(alloc, question, base)?;
    let zero = zero_set(alloc, question)?;
    Ok(lower_guess(alloc, &*question, &zero, &*base, &plan.choices)?)
}

/// These values have these lower guesses if the maximiser chooses.
fn check_guesses(alloc: Global, game: &Game, rows: &[(u64, u64)], choice: u32) -> Result<(), Fail>
    requires { length game.now ≡ 3 }
{
    let question = question_of(alloc, game, Side::Max, 1)?;
    for (value, wanted) in rows {
        check_guess(alloc, &question, *value, *wanted, choice)?;
    }
    Ok(())
}

#[test]
fn the_coin_loop_is_met_in_the_limit(rt: HostRuntime) -> Result<(), Fail> {
    let alloc = rt.alloc();
    // With an excess of 4 units, the table over `HALF - 1` falls from 3 units above one half to 1 and to 0. A table
    // from far below is accepted with the whole excess.
    let rows = [(HALF - 1, HALF), (HALF, HALF), (0, 4), (HALF - 9, HALF - 5)];
    check_guesses(alloc, &coin_loop(alloc)?, &rows, 0)
}
