//! These are worked values, choices and ranks.

ghost use Rattle.std.specs.Prelude.{◌≡◌, length};

use game_model::{Game, Side, UNIT};
use rank_certificate::{check_ranks, find_ranks};
use sample_games::expectations::same;
use sample_games::{four_states, question_of};
use std::alloc::Global;
use std::test::Fail;

const FIFTH: u64 = UNIT / 5;

/// These values, choices and wide ranks of four states pass the check, and the least ranks that do are given with them.
struct Layers {
    values: [u64; 4],
    choices: [Option<u32>; 4],
    wide: [u32; 4],
    least: [u32; 4],
}

/// One side chooses at all states of a game with this goal. The check passes the layers, and the least ranks are found.
fn check_layers(alloc: Global, game: &Game, side: Side, goal: u32, row: &Layers) -> Result<(), Fail>
    requires { length game.now ≡ 4 }
{
    let question = question_of(alloc, game, side, goal)?;
    check_ranks(&question, &row.values, &row.choices, &row.wide)?;
    let found = find_ranks(alloc, &question, &row.values, &row.choices)?;
    same("ranks", found.as_slice(), row.least.as_slice())
}

const OF_FOUR_STATES: Layers = Layers {
    values: [FIFTH, FIFTH, UNIT, 0],
    choices: [None, None, None, None],
    wide: [9, 8, 0, 7],
    least: [2, 1, 0, 0],
};

#[test]
fn every_choice_of_the_minimiser_has_its_layer(rt: HostRuntime) -> Result<(), Fail> {
    let alloc = rt.alloc();
    check_layers(alloc, &four_states(alloc)?, Side::Min, 2, &OF_FOUR_STATES)
}
