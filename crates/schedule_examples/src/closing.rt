//! These tests compare measured widths of brackets with what is proved of them: if plays come to an end, brackets close
//! as fast as they promise.

use crate::brackets::value_bracket;
use game_model::{Game, Question, UNIT};
use game_outside::OpenGate;
use sample_games::expectations::same;
use sample_games::{Draft, coin_game, coin_question, question_with};
use std::alloc::Global;
use std::test::Fail;
use std::thread::Threads;

// From each state, however both sides play, the play is over within this many steps with a probability of at least one
// part of this many.
#[derive(Clone, Copy)]
struct Ending {
    steps: u32,
    parts: u128,
}

// Computes a power of a number, if it fits.
fn power(base: u128, exponent: u32) -> Option<u128> {
    let mut found = 1_u128;
    for _factor in 0..exponent {
        found = found.checked_mul(base)?;
    }
    Some(found)
}

// Returns whether two bounds are as close as this many rounds promise, or nothing if the numbers do not fit.
fn are_close(ending: Ending, rounds: u32, lower: u64, upper: u64) -> Option<bool> {
    let turns = rounds.checked_div(ending.steps)?;
    let whole = power(ending.parts, turns)?;
    let open = power(ending.parts.checked_sub(1)?, turns)?;
    let width = u128::from(upper.saturating_sub(lower)).checked_mul(whole)?;
    let rounded = u128::from(rounds).checked_mul(2)?.checked_mul(whole)?;
    let promised = u128::from(UNIT).checked_mul(open)?.checked_add(rounded)?;
    Some(width <= promised)
}

// Compares the bounds of all states after each number of rounds with what these promise.
fn closes<R: Threads + Sync>(
    rt: &R,
    alloc: Global,
    question: &Question<'_>,
    ending: Ending,
) -> Result<(), Fail> {
    for rounds in 0..28 {
        let found = value_bracket(rt, alloc, question, rounds, 2, &OpenGate {})?;
        for (lower, upper) in found.plan.lower.iter().zip(found.plan.upper.iter()) {
            let close = are_close(ending, found.rounds, *lower, *upper);
            same(rounds, close.ok_or("too many rounds")?, true)?;
        }
    }
    Ok(())
}

#[test]
fn a_coin_that_falls_closes_its_bracket(rt: HostRuntime) -> Result<(), Fail> {
    let alloc = rt.alloc();
    let game = coin_game(alloc).ok_or("no game")?;
    let question = coin_question(alloc, &game).ok_or("no question")?;
    let ending = Ending { steps: 1, parts: 4 };
    closes(&rt, alloc, &question, ending)
}

// Two coins are thrown in turn, and a play is over when the second one falls.
fn two_coins(alloc: Global) -> Option<Game> {
    let mut draft = Draft::new(alloc, 4);
    draft.one(alloc, &[(0, 1), (1, 1)])?;
    draft.one(alloc, &[(0, 2), (2, 1), (3, 1)])?;
    draft.one(alloc, &[(2, 1)])?;
    draft.one(alloc, &[(3, 1)])?;
    draft.game(alloc)
}

#[test]
fn two_coins_in_turn_close_their_bracket(rt: HostRuntime) -> Result<(), Fail> {
    let alloc = rt.alloc();
    let game = two_coins(alloc).ok_or("no game")?;
    let question = question_with(alloc, &game, &[], &[2], &[]).ok_or("no question")?;
    let ending = Ending {
        steps: 2,
        parts: 64,
    };
    closes(&rt, alloc, &question, ending)
}
