//! This module exchanges choices by differences of values.

ghost use Rattle.std.specs.Prelude.{◌≡◌, IfOk, length, vec_len};
ghost use Rattle.float_games.specs.Nodes.{nodes_of};

use crate::limits::is_soon_eliminated;
use float_games::{Chain, FloatGame};
use game_outside::OutOfMemory;
use std::alloc::Global;

/// A choice is exchanged for one that gains more than this part of the value, because a smaller gain is lost in floats.
const TIE: f64 = 0.000_000_000_000_001;

/// Exchanges choices for ones that gain over values, if an elimination takes little: the minimiser's first, and the
/// maximiser's if the minimiser has no exchange. Returns whether there is an exchange. The only error is that memory
/// ran out.
pub(crate) fn exchange(
    alloc: Global,
    game: &FloatGame,
    values: &[f64],
    policy: &mut [u32],
) -> Result<bool, OutOfMemory>
    requires values { length values.now ≡ nodes_of game.now }
    requires policy { length policy.old ≡ nodes_of game.now }
    ensures { length policy.new ≡ length policy.old }
{
    let chain = Chain::of_policy(game, policy);
    if !is_soon_eliminated(chain.nodes(), chain.band()) {
        return Ok(false);
    }
    if exchange_of(alloc, game, false, values, policy)? {
        return Ok(true);
    }
    exchange_of(alloc, game, true, values, policy)
}

/// Exchanges choices of a side, and returns whether there is an exchange.
fn exchange_of(
    alloc: Global,
    game: &FloatGame,
    side: bool,
    values: &[f64],
    policy: &mut [u32],
) -> Result<bool, OutOfMemory>
    requires values { length values.now ≡ nodes_of game.now }
    requires policy { length policy.old ≡ nodes_of game.now }
    ensures { length policy.new ≡ length policy.old }
{
    let firsts = game.first_policy(alloc)?;
    let mut tried = game.first_policy(alloc)?;
    let mut best = gains(alloc, game, values, policy)?;
    let mut is_any = false;
    for _ in 0..game.choices() {
        let found = gains(alloc, game, values, &tried)?;
        for node in 0..game.nodes() {
            let more = if side {
                found[node] - best[node]
            } else {
                best[node] - found[node]
            };
            if game.maximises(node) == side && more > TIE * values[node] {
                best[node] = found[node];
                policy[node] = tried[node];
                is_any = true;
            }
        }
        if !advance(&firsts, game.choices(), &mut tried) {
            break;
        }
    }
    Ok(is_any)
}

/// Returns what each node gains by its choice in a policy.
fn gains(
    alloc: Global,
    game: &FloatGame,
    values: &[f64],
    policy: &[u32],
) -> Result<Vec<f64>, OutOfMemory>
    requires values { length values.now ≡ nodes_of game.now }
    requires policy { length policy.now ≡ nodes_of game.now }
    ensures { IfOk result (λ list. vec_len list ≡ nodes_of game.now) }
{
    Chain::of_policy(game, policy).residuals(alloc, values)
}

/// Goes on to the next choice of each node that has one, and returns whether there is such a node.
fn advance(firsts: &[u32], choices: usize, tried: &mut [u32]) -> bool
    ensures { length tried.new ≡ length tried.old }
{
    let mut is_any = false;
    for node in 0..tried.len() {
        let end = firsts
            .get(node + 1)
            .map_or(choices, |first| *first as usize);
        let next = tried[node].saturating_add(1);
        if (next as usize) < end {
            tried[node] = next;
            is_any = true;
        }
    }
    is_any
}
