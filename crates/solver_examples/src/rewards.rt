//! These are worked tables of expected rewards.

use almost_sure::almost_sure;
use game_model::{Game, Side};
use predecessors::Predecessors;
use reward_check::turn;
use reward_solver::find_reward_bounds;
use rewards_reader::read_rewards;
use sample_games::expectations::same;
use sample_games::{game_of, question_of};
use std::alloc::Global;
use std::test::Fail;
use text_lines::MOST_BYTES;

/// A die is tossed with a fair coin, as Knuth and Yao do. State 7 stands for all six results.
fn die(alloc: Global) -> Result<Game, Fail> {
    game_of(
        alloc,
        &[
            &[&[(1, 1), (2, 1)]],
            &[&[(3, 1), (4, 1)]],
            &[&[(5, 1), (6, 1)]],
            &[&[(1, 1), (7, 1)]],
            &[&[(7, 1)]],
            &[&[(7, 1)]],
            &[&[(2, 1), (7, 1)]],
            &[&[(7, 1)]],
        ],
    )
}

/// State 0 waits for nothing or goes on to the goal, state 1.
fn waiting(alloc: Global) -> Result<Game, Fail> {
    game_of(alloc, &[&[&[(0, 1)], &[(1, 1)]], &[&[(1, 1)]]])
}

/// Finds the places of units, and the lower and the upper value of state 0.
fn first_values(
    alloc: Global,
    game: &Game,
    rewards: &[u8],
    side: Side,
    goal: u32,
) -> Result<(u32, u64, u64), Fail> {
    if rewards.len() > MOST_BYTES {
        return Err(Fail::new("too long"));
    }
    let Ok(table) = read_rewards(alloc, rewards, game) else {
        return Err(Fail::new("no rewards"));
    };
    let question = question_of(alloc, game, side, goal)?;
    let turned = turn(alloc, &question)?;
    let finite = almost_sure(alloc, &turned)?;
    let predecessors = Predecessors::of_game(alloc, game)?;
    let found = find_reward_bounds(alloc, &question, &predecessors, &finite, &table)?;
    match (found.lower.first(), found.upper.first()) {
        (Some(lower), Some(upper)) => Ok((found.places, *lower, *upper)),
        _ => Err(Fail::new("no state")),
    }
}

#[test]
fn a_die_takes_eleven_thirds_tosses(rt: HostRuntime) -> Result<(), Fail> {
    let game = die(rt.alloc())?;
    let tosses = b"rewards 8 7\n0 1\n1 1\n2 1\n3 1\n4 0 1\n5 0 1\n6 1\n";
    let found = first_values(rt.alloc(), &game, tosses, Side::Min, 7)?;
    same(
        "tosses",
        found,
        (14, 366_666_666_666_666, 366_666_666_666_667),
    )
}

#[test]
fn who_waits_for_nothing_pays_in_the_end(rt: HostRuntime) -> Result<(), Fail> {
    let game = waiting(rt.alloc())?;
    let found = first_values(rt.alloc(), &game, b"rewards 2 1\n0 1 2\n", Side::Min, 1)?;
    same(
        "waiting",
        found,
        (14, 200_000_000_000_000, 200_000_000_000_000),
    )
}
