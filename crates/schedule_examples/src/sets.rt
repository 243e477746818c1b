//! These are worked sets: the states of value 0 and those from which a goal is reached almost surely.

use almost_sure::almost_sure;
use game_model::Side;
use sample_games::expectations::same;
use sample_games::{chain, goal_or_sink, question_of, question_with_dead};
use std::alloc::Global;
use std::test::Fail;
use zero_sets::zero_set;

/// If one side chooses between goal and sink, this many states have the value 0, and this many are almost sure.
fn check_choice(alloc: Global, side: Side, zero: u32, sure: u32) -> Result<(), Fail> {
    let game = goal_or_sink(alloc)?;
    let question = question_of(alloc, &game, side, 1)?;
    let found = (
        zero_set(alloc, &question)?.count(),
        almost_sure(alloc, &question)?.count(),
    );
    same("zero and sure", found, (zero, sure))
}

#[test]
fn the_minimiser_goes_to_the_sink_and_the_maximiser_to_the_goal(
    rt: HostRuntime,
) -> Result<(), Fail> {
    check_choice(rt.alloc(), Side::Min, 2, 1)?;
    check_choice(rt.alloc(), Side::Max, 1, 2)
}

#[test]
fn a_dead_state_cuts_a_chain(rt: HostRuntime) -> Result<(), Fail> {
    let alloc = rt.alloc();
    let game = chain(alloc, 40)?;
    let question = question_with_dead(alloc, &game, Side::Min, 39, 20)?;
    let zero = zero_set(alloc, &question)?.count();
    same(
        "zero and sure",
        (zero, almost_sure(alloc, &question)?.count()),
        (21, 19),
    )
}
