//! This module sweeps first, and then iterates strategies.

ghost use Rattle.std.specs.Prelude.{◌≡◌, IsTrue, OnOk, length};
ghost use Rattle.float_games.specs.Nodes.{nodes_of};
ghost use Rattle.float_games.specs.Units.{AreInUnits};

use crate::evaluation::refine;
use crate::exchange::exchange;
use crate::iteration::iterate;
use crate::limits::{ENOUGH, GAIN};
use crate::pace::Pace;
use float_games::FloatGame;
use game_outside::OutOfMemory;
use std::alloc::Global;

/// There are at most this many rounds of sweeps.
const ROUNDS: u32 = 200;

/// A round has at most this many sweeps of a policy.
const SWEEPS: u32 = 8;

/// Values count as found only if the last sweep changes them by at most this.
const FOUND: f64 = 64.0;

/// Choices are exchanged by differences at most this many times.
const TURNS: u32 = 20;

/// Brings values and a policy near those of the game, and values nearer from what they miss. If loops enlarge small
/// differences, choices may tie in floats and still gain by differences. Then they are exchanged. The only error is
/// that memory ran out.
pub fn solve_nearly(
    alloc: Global,
    game: &FloatGame,
    values: &mut [f64],
    policy: &mut [u32],
) -> Result<(), OutOfMemory>
    requires values { length values.old ≡ nodes_of game.now }
    requires policy { length policy.old ≡ nodes_of game.now }
    ensures { OnOk result (AreInUnits values.new) }
{
    let _is_found = solve(alloc, game, 0.0, values, policy)?;
    refine(alloc, game, policy, values)?;
    for _ in 0..TURNS {
        if !exchange(alloc, game, values, policy)? {
            break;
        }
        refine(alloc, game, policy, values)?;
    }
    Ok(())
}

/// Brings values and a policy near those of the game when each move costs this many units. For lower values the initial
/// policy of the maximiser should leave with probability 1, and the initial values should be low. Returns whether a
/// sweep changes little in the end. The only error is that memory ran out.
pub fn solve(
    alloc: Global,
    game: &FloatGame,
    cost: f64,
    values: &mut [f64],
    policy: &mut [u32],
) -> Result<bool, OutOfMemory>
    requires values { length values.old ≡ nodes_of game.now }
    requires policy { length policy.old ≡ nodes_of game.now }
    ensures { OnOk result (AreInUnits values.new) }
{
    if is_swept(game, cost, values, policy) {
        return Ok(true);
    }
    let _swept = game.sweep(cost, GAIN, values, policy);
    let is_found = iterate(alloc, game, cost, values, policy)?;
    let mut other = policy.to_vec(alloc)?;
    Ok(last_change(game, cost, values, &mut other) <= FOUND && is_found)
}

/// Sweeps while values come near fast. Returns whether a sweep changes little in the end.
fn is_swept(game: &FloatGame, cost: f64, values: &mut [f64], policy: &mut [u32]) -> bool
    requires values { length values.old ≡ nodes_of game.now }
    requires policy { length policy.old ≡ nodes_of game.now }
    ensures { IsTrue result → AreInUnits values.new }
{
    for round in 0..ROUNDS {
        if game.sweep(cost, GAIN, values, policy).change <= ENOUGH {
            return true;
        }
        let pace = follow(game, cost, values, policy);
        if round > 0 && !pace.is_done() && pace.is_slow() {
            return false;
        }
    }
    false
}

/// Makes sweeps of a policy.
fn follow(game: &FloatGame, cost: f64, values: &mut [f64], policy: &[u32]) -> Pace
    requires values { length values.old ≡ nodes_of game.now }
    requires policy { length policy.now ≡ nodes_of game.now }
{
    let first = game.sweep_policy(cost, values, policy);
    let mut last = first;
    for _ in 1..SWEEPS {
        if last <= ENOUGH {
            break;
        }
        last = game.sweep_policy(cost, values, policy);
    }
    Pace { first, last }
}

/// Sweeps until a sweep changes little, at most eight times. Returns what the last one changed.
fn last_change(game: &FloatGame, cost: f64, values: &mut [f64], policy: &mut [u32]) -> f64
    requires values { length values.old ≡ nodes_of game.now }
    requires policy { length policy.old ≡ nodes_of game.now }
    ensures { AreInUnits values.new }
{
    let mut change = f64::MAX;
    for _ in 0..SWEEPS {
        change = game.sweep(cost, GAIN, values, policy).change;
        if change <= ENOUGH {
            break;
        }
    }
    change
}
