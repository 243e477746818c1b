//! Guesses are made in few up steps.

ghost use Rattle.std.specs.Prelude.{◌≡◌, ◌≤◌, All, length};
ghost use Rattle.game_model.specs.Limits.{unit};
ghost use Rattle.game_model.specs.Query.{states};
ghost use Rattle.bracket_engine.specs.Limits.{most_rounds};

use crate::counted::{Counted, guess_by};
use bracket_engine::bracket_for;
use game_model::{Question, Side, UNIT};
use game_outside::OpenGate;
use predecessors::Predecessors;
use rpatl_syntax::Bound;
use sample_games::expectations::{holds, same};
use sample_games::{
    Model, agreement_game, agreement_question, chain, coin_game, coin_question, contract,
    question_of, retransmission, robot, shared_coin,
};
use std::alloc::Global;
use std::test::Fail;
use std::thread::Threads;
use upper_guess::{Alone, Witnesses, guess_with};
use zero_sets::zero_set;

/// A guess may make at most this many up steps of whole tables.
const FEW: u64 = 60;

// Counts the up steps of the guess over the base after this many rounds.
fn up_steps<R: Threads + Sync>(
    rt: &R,
    alloc: Global,
    question: &Question<'_>,
    rounds: u32,
) -> Result<u64, Fail>
    requires { rounds ≤ most_rounds }
{
    question.invariant();
    let predecessors = Predecessors::of_game(alloc, question.game())?;
    let found = bracket_for(
        rt,
        alloc,
        question,
        &predecessors,
        Bound::AskMax,
        &[0],
        rounds,
        1,
        &OpenGate {},
    )?;
    let (_guess, steps) = guess_by(&Alone {}, alloc, question, &found.zero, &found.bracket.base)?;
    Ok(steps)
}

// The guess over the base after this many rounds makes this many up steps.
fn makes_up_steps<R: Threads + Sync>(
    rt: &R,
    alloc: Global,
    question: &Question<'_>,
    rounds: u32,
    count: u64,
) -> Result<(), Fail>
    requires { rounds ≤ most_rounds }
{
    let made = up_steps(rt, alloc, question, rounds)?;
    same(rounds, made, count)
}

// The guess makes exactly this many up steps. At the values of the coin loop it takes two without an excess. After
// three rounds the first table of the excess that reaches one half is accepted.
#[test]
fn guesses_of_the_coin_loop_make_so_many_up_steps(rt: HostRuntime) -> Result<(), Fail> {
    let alloc = rt.alloc();
    let game = coin_game(alloc).ok_or("the game")?;
    let question = coin_question(alloc, &game).ok_or("the question")?;
    makes_up_steps(&rt, alloc, &question, 3, 1)?;
    makes_up_steps(&rt, alloc, &question, 1_000, 2)
}

// The guess makes few up steps after this many rounds.
fn makes_few<R: Threads + Sync>(
    rt: &R,
    alloc: Global,
    name: &str,
    question: &Question<'_>,
    rounds: u32,
) -> Result<(), Fail>
    requires { rounds ≤ most_rounds }
{
    let count = up_steps(rt, alloc, question, rounds)?;
    holds(
        format_args!("few: {name}, {count} after {rounds} rounds"),
        count <= FEW,
    )
}

// The guess makes few up steps after few rounds and after many.
fn are_few<R: Threads + Sync>(
    rt: &R,
    alloc: Global,
    name: &str,
    question: Option<Question<'_>>,
) -> Result<(), Fail> {
    let question = question.ok_or("the question")?;
    makes_few(rt, alloc, name, &question, 3)?;
    makes_few(rt, alloc, name, &question, 1_000)
}

// The guesses of a structured model make few up steps, for a player of either side.
fn are_few_of<R: Threads + Sync>(
    rt: &R,
    alloc: Global,
    name: &str,
    model: Option<Model>,
) -> Result<(), Fail> {
    let model = model.ok_or("the model")?;
    are_few(rt, alloc, name, model.question(alloc, Side::Max))?;
    are_few(rt, alloc, name, model.question(alloc, Side::Min))
}

// The guesses of the coin loop make few up steps.
fn are_few_of_the_coin<R: Threads + Sync>(rt: &R, alloc: Global) -> Result<(), Fail> {
    let game = coin_game(alloc).ok_or("the game")?;
    are_few(rt, alloc, "the coin loop", coin_question(alloc, &game))
}

// The guesses of the agreement protocol make few up steps.
fn are_few_of_the_agreement<R: Threads + Sync>(rt: &R, alloc: Global) -> Result<(), Fail> {
    let game = agreement_game(alloc).ok_or("the game")?;
    are_few(
        rt,
        alloc,
        "the agreement protocol",
        agreement_question(alloc, &game),
    )
}

#[test]
fn guesses_make_few_up_steps(rt: HostRuntime) -> Result<(), Fail> {
    let alloc = rt.alloc();
    are_few_of_the_coin(&rt, alloc)?;
    are_few_of_the_agreement(&rt, alloc)?;
    are_few_of(&rt, alloc, "the robot", robot(alloc))?;
    are_few_of(&rt, alloc, "bounded retransmission", retransmission(alloc))?;
    are_few_of(&rt, alloc, "contract signing", contract(alloc))?;
    are_few_of(&rt, alloc, "the shared coin", shared_coin(alloc))
}

#[test]
fn a_guess_looks_first_at_the_states_that_refused_the_last_one(
    rt: HostRuntime,
) -> Result<(), Fail> {
    let alloc = rt.alloc();
    let game = chain(alloc, 8)?;
    let question = question_of(alloc, &game, Side::Max, 7)?;
    check_steps(alloc, &question, &[0, 0, 0, 0, 0, 0, 0, UNIT])
}

// The first of two guesses over one table of a chain of eight states takes 6 up steps, and the second takes 1 more.
fn check_steps(alloc: Global, question: &Question<'_>, lower: &[u64]) -> Result<(), Fail>
    requires many { length lower.now ≡ states question.now }
    requires units { All (λ v. v ≤ unit) lower.now }
{
    question.invariant();
    let zero = zero_set(alloc, question)?;
    let counted = Counted::of(&Alone {});
    let mut witnesses = Witnesses::none();
    // The five tables without an excess are made, and each is refused at another state. These states refuse all other
    // tables up to the one that has the unit everywhere.
    guess_with(&counted, alloc, &*question, &zero, &*lower, &mut witnesses)?;
    let first = counted.up_steps();
    // Now these states refuse the five tables as well.
    guess_with(&counted, alloc, &*question, &zero, &*lower, &mut witnesses)?;
    same("up steps", (first, counted.up_steps()), (6, 7))
}
