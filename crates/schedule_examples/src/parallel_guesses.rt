//! Several workers make the same tables and guesses as one.

ghost use Rattle.std.specs.Prelude.{◌≡◌, ◌≤◌, length, All};
ghost use Rattle.game_model.specs.Limits.{most_states, unit};
ghost use Rattle.drawn_game.specs.Limits.{least_states, most_seed};
ghost use Rattle.game_model.specs.Query.{states};

use crate::counted::guess_by;
use bracket_engine::ParallelSweep;
use drawn_game::draw_game;
use game_model::{Game, Question, Side, UNIT};
use sample_games::expectations::same;
use sample_games::{chain, four_states, question_of};
use std::alloc::Global;
use std::test::Fail;
use std::thread::Threads;
use upper_guess::Alone;
use zero_sets::zero_set;

// Several numbers of workers make the guess that one worker makes, by as many up steps.
fn guesses_agree<R: Threads + Sync>(
    rt: &R,
    alloc: Global,
    question: &Question<'_>,
    lower: &[u64],
) -> Result<(), Fail>
    requires many { length lower.now ≡ states question.now }
    requires units { All (λ v. v ≤ unit) lower.now }
{
    let zero = zero_set(alloc, question)?;
    let alone = guess_by(&Alone {}, alloc, question, &zero, lower)?;
    for workers in [1, 2, 3, 7] {
        let found = guess_by(
            &ParallelSweep { rt, workers },
            alloc,
            question,
            &zero,
            lower,
        )?;
        same(
            workers,
            (found.0.as_slice(), found.1),
            (alone.0.as_slice(), alone.1),
        )?;
    }
    Ok(())
}

// They agree over a game of one player, whose goal is this state.
fn guesses_agree_over<R: Threads + Sync>(
    rt: &R,
    alloc: Global,
    game: Game,
    side: Side,
    goal: u32,
    lower: &[u64],
) -> Result<(), Fail>
    requires many { length lower.now ≡ length game }
    requires units { All (λ v. v ≤ unit) lower.now }
{
    let question = question_of(alloc, &game, side, goal)?;
    guesses_agree(rt, alloc, &question, lower)
}

#[test]
fn several_workers_guess_what_one_does(rt: HostRuntime) -> Result<(), Fail> {
    let alloc = rt.alloc();
    let game = chain(alloc, 8)?;
    let lower = [0, 0, 0, 0, 0, 0, 0, UNIT];
    guesses_agree_over(&rt, alloc, game, Side::Max, 7, &lower)?;
    let game = four_states(alloc)?;
    guesses_agree_over(&rt, alloc, game, Side::Min, 2, &[0, 0, UNIT, 0])
}

// They agree over the table that is 0 everywhere.
fn guesses_agree_from_nothing<R: Threads + Sync>(
    rt: &R,
    alloc: Global,
    question: &Question<'_>,
) -> Result<(), Fail> {
    question.invariant();
    let lower = vec![in alloc; 0; question.game().states() as usize]?;
    guesses_agree(rt, alloc, question, &lower)
}

#[test]
fn several_workers_guess_the_same_over_a_drawn_game(rt: HostRuntime) -> Result<(), Fail> {
    guesses_agree_over_drawn(&rt, rt.alloc(), 7, 200)
}

// They agree over a drawn game.
fn guesses_agree_over_drawn<R: Threads + Sync>(
    rt: &R,
    alloc: Global,
    seed: u32,
    states: u32,
) -> Result<(), Fail>
    requires seed { (1 ≤ seed) × (seed ≤ most_seed) }
    requires states { (least_states ≤ states) × (states ≤ most_states) }
{
    let drawn = draw_game(alloc, seed, states)?;
    let question = drawn.question(alloc)?;
    guesses_agree_from_nothing(rt, alloc, &question)
}

/// A table of this many states is too large to stay near the processor.
const MANY: u32 = 300_000;

#[test]
fn several_workers_guess_the_same_over_many_states(rt: HostRuntime) -> Result<(), Fail> {
    let alloc = rt.alloc();
    let game = chain(alloc, MANY)?;
    let question = question_of(alloc, &game, Side::Max, MANY - 1)?;
    guesses_agree_from_nothing(&rt, alloc, &question)
}
