//! These are worked local games.

ghost use Rattle.std.specs.Prelude.{◌≡◌, IfOk, length, vec_len};
ghost use Rattle.float_games.specs.Nodes.{nodes_of};

use crate::chains::{add_gambler, near_shares, ruin};
use crate::rows::{Way, add_node, finished};
use float_games::{Draft, FloatGame, UNIT};
use local_values::{expected_moves, refine, solve};
use sample_games::expectations::{holds, same};
use std::alloc::Global;
use std::test::Fail;

#[test]
fn values_of_a_gambler(rt: HostRuntime) -> Result<(), Fail> {
    for states in [1, 2, 7, 300] {
        let game = ruin(rt.alloc(), states)?;
        check_ruin(rt.alloc(), &game)?;
    }
    Ok(())
}

/// The values of gambler's ruin are found, and are near its shares of the unit.
fn check_ruin(alloc: Global, game: &FloatGame) -> Result<(), Fail> {
    let mut policy = game.first_policy(alloc)?;
    let mut values = vec![in alloc; 0.0; game.nodes()]?;
    let is_found = solve(alloc, game, 0.0, &mut values, &mut policy)?;
    holds("found", is_found)?;
    refine(alloc, game, &policy, &mut values)?;
    near_shares(&values, 2.0)
}

/// Makes gambler's ruin over 701 states, mixed so that the band of the chain is too wide for an elimination. Node `i`
/// is state `211 i` of them, modulo 701.
fn mixed_ruin(alloc: Global) -> Result<FloatGame, Fail> {
    let mut draft = Draft::new(alloc, 701, 701, 1402)?;
    for node in 0..701u32 {
        let state = node * 211 % 701;
        // 402 is the inverse of 211, and 700 is -1, modulo 701.
        let (down, up) = ((state + 700) * 402 % 701, (state + 1) * 402 % 701);
        add_gambler(&mut draft, state, 700, down, up)?;
    }
    finished(draft)
}

#[test]
fn values_of_a_gambler_whose_band_is_wide(rt: HostRuntime) -> Result<(), Fail> {
    let game = mixed_ruin(rt.alloc())?;
    check_mixed_ruin(rt.alloc(), &game)
}

/// The values of the mixed gambler's ruin are near its shares of the unit.
fn check_mixed_ruin(alloc: Global, game: &FloatGame) -> Result<(), Fail> {
    let mut policy = game.first_policy(alloc)?;
    let values = solved(alloc, game, &mut policy)?;
    near_shares(&by_state(alloc, &values)?, 1_000_000.0)
}

/// Returns the values that a game and a policy are brought to, from 0 on.
pub(crate) fn solved(alloc: Global, game: &FloatGame, policy: &mut [u32]) -> Result<Vec<f64>, Fail>
    requires { length policy.old ≡ nodes_of game.now }
    ensures { IfOk result (λ values. vec_len values ≡ nodes_of game.now) }
{
    let mut values = vec![in alloc; 0.0; game.nodes()]?;
    let _is_found = solve(alloc, game, 0.0, &mut values, policy)?;
    Ok(values)
}

/// Returns the values of the mixed nodes in the order of their states.
fn by_state(alloc: Global, values: &[f64]) -> Result<Vec<f64>, Fail> {
    let mut sorted = vec![in alloc; 0.0; values.len()]?;
    for (node, value) in values.iter().enumerate() {
        if let Some(entry) = sorted.get_mut(node % 701 * 211 % 701) {
            *entry = *value;
        }
    }
    Ok(sorted)
}

/// Node 0 may go to node 1, or leave with 0.65 of the unit. Node 1, of this side, leaves with 0.2, or by its other
/// choice goes back or leaves with 0.5, each with probability one half.
fn two_nodes(alloc: Global, maximises: bool) -> Result<FloatGame, Fail> {
    let mut draft = Draft::new(alloc, 2, 4, 3)?;
    let out = [Way::Out(13.0, 1.0), Way::Out(7.0, 0.0)];
    add_node(&mut draft, true, &[&[Way::To(1, 1.0)], &out])?;
    let back = [Way::To(0, 1.0), Way::Out(1.0, 0.5)];
    add_node(&mut draft, maximises, &[&[Way::Out(1.0, 0.2)], &back])?;
    finished(draft)
}

#[test]
fn each_side_takes_its_best_choice(rt: HostRuntime) -> Result<(), Fail> {
    // The worse choice of node 1 comes first.
    check_two_nodes(rt.alloc(), true, &[1, 2], &[1, 3], &[0.65, 0.575])?;
    check_two_nodes(rt.alloc(), false, &[1, 3], &[1, 2], &[0.65, 0.2])
}

/// From the policy `start` the two nodes come to the policy `wanted`, and to these shares of the unit.
fn check_two_nodes(
    alloc: Global,
    maximises: bool,
    start: &[u32],
    wanted: &[u32],
    shares: &[f64],
) -> Result<(), Fail> {
    let game = two_nodes(alloc, maximises)?;
    let mut policy = game.first_policy(alloc)?;
    for (entry, first) in policy.iter_mut().zip(start) {
        *entry = *first;
    }
    let values = solved(alloc, &game, &mut policy)?;
    same("policy", policy.as_slice(), wanted)?;
    are_near(&values, shares)
}

/// There are as many values as shares of the unit, and each value is off by less than one unit.
fn are_near(values: &[f64], shares: &[f64]) -> Result<(), Fail> {
    same("as many", values.len(), shares.len())?;
    for (value, wanted) in values.iter().zip(shares) {
        let off = (*value - *wanted * UNIT).abs();
        holds(format_args!("{value} is {wanted}"), off < 1.0)?;
    }
    Ok(())
}

/// Node 0 goes to node 1. From there half goes back, and half leaves, with the unit or with nothing.
fn cycle(alloc: Global) -> Result<FloatGame, Fail> {
    let mut draft = Draft::new(alloc, 2, 2, 2)?;
    add_node(&mut draft, false, &[&[Way::To(1, 1.0)]])?;
    let out = [Way::To(0, 2.0), Way::Out(1.0, 1.0), Way::Out(1.0, 0.0)];
    add_node(&mut draft, false, &[&out])?;
    finished(draft)
}

#[test]
fn a_cycle_with_an_exit(rt: HostRuntime) -> Result<(), Fail> {
    let game = cycle(rt.alloc())?;
    check_cycle(rt.alloc(), &game)
}

/// From both nodes of the cycle the value is half of the unit, and from the first node four moves are expected.
fn check_cycle(alloc: Global, game: &FloatGame) -> Result<(), Fail> {
    let mut policy = game.first_policy(alloc)?;
    let values = solved(alloc, game, &mut policy)?;
    are_near(&values, &[0.5, 0.5])?;
    let moves = expected_moves(alloc, game, &policy)?.ok_or("no moves")?;
    holds(
        "four moves from the first",
        moves
            .first()
            .is_some_and(|first| (*first - 4.0).abs() < 0.4),
    )
}

#[test]
fn nonsense_ends(rt: HostRuntime) -> Result<(), Fail> {
    let game = ruin(rt.alloc(), 30)?;
    for nonsense in [f64::NAN, f64::INFINITY, -1e300, 1e300] {
        check_nonsense(rt.alloc(), &game, nonsense)?;
    }
    Ok(())
}

/// The solver ends even if the policy is none, and if the values and the cost of a move are this number.
fn check_nonsense(alloc: Global, game: &FloatGame, nonsense: f64) -> Result<(), Fail> {
    let mut policy = vec![in alloc; 4_000_000_000u32; game.nodes()]?;
    let mut values = vec![in alloc; nonsense; game.nodes()]?;
    let _is_found = solve(alloc, game, nonsense, &mut values, &mut policy)?;
    same("as many", values.len(), 30)
}
