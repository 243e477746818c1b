//! This module finds the values of a policy.

ghost use Rattle.std.specs.Prelude.{◌≡◌, IfOk, IfSome, OnErr, length, vec_len};
ghost use Rattle.float_games.specs.Nodes.{nodes_of, nodes_in};
ghost use Rattle.float_games.specs.Units.{AreInUnits};

use crate::elimination::Factors;
use crate::krylov::approach;
use crate::limits::{ENOUGH, is_narrow, is_soon_eliminated};
use float_games::{Chain, FloatGame, bounded};
use game_outside::OutOfMemory;
use std::alloc::Global;

/// A sweep may still change values by this much after an elimination.
const LEFT: f64 = 0.1;

/// At most this many steps in a Krylov space are taken.
const STEPS: u32 = 400;

/// Expected moves are near enough if a pass changes them by less than this.
const MOVES: f64 = 0.1;

/// Brings values to those of a policy, when each move costs this much. Returns about how much a sweep still changes.
pub(crate) fn evaluate(
    alloc: Global,
    game: &FloatGame,
    cost: f64,
    policy: &[u32],
    values: &mut [f64],
) -> Result<f64, OutOfMemory>
    requires policy { length policy.now ≡ nodes_of game.now }
    requires values { length values.old ≡ nodes_of game.now }
{
    let chain = Chain::of_policy(game, policy);
    let band = chain.band();
    let mut sums = chain.gives(alloc, cost)?;
    let mut left = LEFT;
    if is_narrow(chain.nodes(), band) {
        let factors = Factors::of_chain(alloc, &chain, band)?;
        factors.solve(&mut sums);
        replace(values, &sums);
    } else {
        let change = chain.pass(&sums, values);
        let enough = ENOUGH.max(change * 0.0001);
        left = approach(alloc, &chain, &sums, values, enough, STEPS)?;
        bound(values);
    }
    Ok(left)
}

/// Adds to values of a policy what they miss, if an elimination takes little. What they miss is found from differences,
/// which are nearly exact. The only error is that memory ran out, and then the values stay as they were.
pub fn refine(
    alloc: Global,
    game: &FloatGame,
    policy: &[u32],
    values: &mut [f64],
) -> Result<(), OutOfMemory>
    requires policy { length policy.now ≡ nodes_of game.now }
    requires values { length values.old ≡ nodes_of game.now }
    ensures units { AreInUnits values.old → AreInUnits values.new }
    ensures kept { OnErr result (values.new ≡ values.old) }
{
    let chain = Chain::of_policy(game, policy);
    let band = chain.band();
    if !is_soon_eliminated(chain.nodes(), band) {
        return Ok(());
    }
    let mut missed = chain.residuals(alloc, values)?;
    let factors = Factors::of_chain(alloc, &chain, band)?;
    factors.solve(&mut missed);
    add_missed(values, &missed);
    Ok(())
}

/// Adds to each value what it misses, and keeps it from 0 to the unit.
fn add_missed(values: &mut [f64], missed: &[f64])
    requires { length missed.now ≡ length values.old }
    ensures { AreInUnits values.new }
{
    for node in 0..values.len() {
        values[node] = bounded(values[node] + missed[node]);
    }
}

/// Returns for each node how many moves a policy is expected to make before it leaves, or nothing if this is not found.
/// Ten per cent off is near enough. The only error is that memory ran out.
pub fn expected_moves(
    alloc: Global,
    game: &FloatGame,
    policy: &[u32],
) -> Result<Option<Vec<f64>>, OutOfMemory>
    requires { length policy.now ≡ nodes_of game.now }
    ensures { IfOk result (λ found. IfSome found (λ moves. vec_len moves ≡ nodes_of game.now)) }
{
    let chain = Chain::of_policy(game, policy);
    let ones = vec![in alloc; 1.0; chain.nodes()]?;
    let mut moves = vec![in alloc; 0.0; chain.nodes()]?;
    if is_passed(&chain, &ones, &mut moves) {
        return Ok(Some(moves));
    }
    let band = chain.band();
    if is_narrow(chain.nodes(), band) {
        let factors = Factors::of_chain(alloc, &chain, band)?;
        let mut found = ones;
        factors.solve(&mut found);
        return Ok(Some(found));
    }
    let left = approach(alloc, &chain, &ones, &mut moves, MOVES, STEPS)?;
    if left < 3.0 * MOVES {
        return Ok(Some(moves));
    }
    Ok(None)
}

/// Returns whether a few passes are enough.
fn is_passed(chain: &Chain, sums: &[f64], values: &mut [f64]) -> bool
    requires sums { length sums.now ≡ nodes_in chain.now }
    requires values { length values.old ≡ nodes_in chain.now }
{
    for _ in 0..30 {
        if chain.pass(sums, values) < MOVES {
            return true;
        }
    }
    false
}

/// Replaces each value by another one, from 0 to the unit.
fn replace(values: &mut [f64], others: &[f64]) {
    for (value, other) in values.iter_mut().zip(others) {
        *value = bounded(*other);
    }
}

/// Replaces each value by the nearest one from 0 to the unit.
fn bound(values: &mut [f64]) {
    for value in values {
        *value = bounded(*value);
    }
}
