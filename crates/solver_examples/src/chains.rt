//! These are worked chains.

ghost use Rattle.std.specs.Prelude.{◌≡◌, IfOk, length, vec_len};
ghost use Rattle.float_games.specs.Nodes.{nodes_of};

use crate::rows::{Way, add_node, finished};
use float_games::{Chain, Draft, FloatGame, UNIT};
use local_values::{Factors, approach};
use sample_games::expectations::{holds, same};
use std::alloc::Global;
use std::num::nearest_usize_to_f64;
use std::test::Fail;

/// Makes gambler's ruin over this many states between ruin and the goal. Each state goes up and down with probability
/// 1/2 each.
pub(crate) fn ruin(alloc: Global, states: u32) -> Result<FloatGame, Fail> {
    let mut draft = Draft::new(alloc, states as usize, states as usize, states as usize)?;
    for state in 0..states {
        let (down, up) = (state.saturating_sub(1), state.saturating_add(1));
        add_gambler(&mut draft, state, states - 1, down, up)?;
    }
    finished(draft)
}

/// Adds a state of a gambler, which goes down and up to these nodes. The first state goes down to ruin, and the last
/// state goes up to the goal.
pub(crate) fn add_gambler(
    draft: &mut Draft,
    state: u32,
    last: u32,
    down: u32,
    up: u32,
) -> Result<(), Fail> {
    let lower = if state == 0 {
        Way::Out(1.0, 0.0)
    } else {
        Way::To(down, 1.0)
    };
    let upper = if state == last {
        Way::Out(1.0, 1.0)
    } else {
        Way::To(up, 1.0)
    };
    add_node(draft, true, &[&[lower, upper]])
}

/// Each value is this near to its share of the unit.
pub(crate) fn near_shares(values: &[f64], most: f64) -> Result<(), Fail> {
    let count = nearest_usize_to_f64(values.len()) + 1.0;
    let mut place = 0.0;
    for value in values {
        place += 1.0;
        let off = (*value - UNIT * place / count).abs();
        holds(
            format_args!("{value} is near {place} of {count}"),
            off <= most,
        )?;
    }
    Ok(())
}

#[test]
fn an_elimination_gives_the_chances_of_a_gambler(rt: HostRuntime) -> Result<(), Fail> {
    for states in [1, 2, 3, 40, 999] {
        let game = ruin(rt.alloc(), states)?;
        let policy = game.first_policy(rt.alloc())?;
        let chain = Chain::of_policy(&game, &policy);
        let factors = Factors::of_chain(rt.alloc(), &chain, chain.band())?;
        let mut values = chain.gives(rt.alloc(), 0.0)?;
        factors.solve(&mut values);
        near_shares(&values, 64.0)?;
        // The number of moves from state 1 of n is n, so two sums need no second elimination.
        let mut moves = vec![in rt.alloc(); 1.0; chain.nodes()]?;
        factors.solve(&mut moves);
        let first = moves.first().copied().unwrap_or(0.0);
        holds("moves", (first - f64::from(states)).abs() < 0.001)?;
    }
    Ok(())
}

#[test]
fn steps_in_a_krylov_space_come_to_the_same(rt: HostRuntime) -> Result<(), Fail> {
    let game = ruin(rt.alloc(), 100)?;
    check_steps(rt.alloc(), &game)
}

/// Steps come to a gambler's chances, and a second time to the same values.
fn check_steps(alloc: Global, game: &FloatGame) -> Result<(), Fail> {
    let policy = game.first_policy(alloc)?;
    let chain = Chain::of_policy(game, &policy);
    let values = approached(alloc, &chain)?;
    near_shares(&values, 10_000.0)?;
    let again = approached(alloc, &chain)?;
    same(
        "the same once more",
        again.as_slice() == values.as_slice(),
        true,
    )
}

/// Returns the values that steps from 0 come to, and checks that a pass changes little in the end.
fn approached(alloc: Global, chain: &Chain) -> Result<Vec<f64>, Fail> {
    let sums = chain.gives(alloc, 0.0)?;
    let mut values = vec![in alloc; 0.0; chain.nodes()]?;
    let left = approach(alloc, chain, &sums, &mut values, 0.3, 400)?;
    holds(format_args!("little is left: {left}"), left <= 0.3)?;
    Ok(values)
}

#[test]
fn what_never_leaves_has_the_value_zero(rt: HostRuntime) -> Result<(), Fail> {
    let game = endless(rt.alloc())?;
    check_endless(rt.alloc(), &game)
}

/// An elimination gives the value 0 to nodes that never leave.
fn check_endless(alloc: Global, game: &FloatGame) -> Result<(), Fail> {
    let policy = game.first_policy(alloc)?;
    let chain = Chain::of_policy(game, &policy);
    let factors = Factors::of_chain(alloc, &chain, chain.band())?;
    let mut values = chain.gives(alloc, 0.0)?;
    factors.solve(&mut values);
    holds("both are 0", values.iter().all(|value| *value == 0.0))
}

/// Two nodes go to each other.
fn endless(alloc: Global) -> Result<FloatGame, Fail> {
    let mut draft = Draft::new(alloc, 2, 2, 2)?;
    for node in [1, 0] {
        add_node(&mut draft, true, &[&[Way::To(node, 1.0)]])?;
    }
    finished(draft)
}
