//! This module has strategy iteration.

ghost use Rattle.std.specs.Prelude.{◌≡◌, length};
ghost use Rattle.float_games.specs.Nodes.{nodes_of};

use crate::evaluation::evaluate;
use crate::limits::{ENOUGH, is_narrow, products_of};
use float_games::{Chain, FloatGame};
use game_outside::OutOfMemory;
use std::alloc::Global;
use std::num::{nearest_usize_to_f64, saturating_f64_to_u32};

/// At most this many policies are evaluated.
const POLICIES: u32 = 200;

/// A better evaluation is awaited for this many turns without an exchange.
const PATIENCE: u32 = 12;

/// This many sweeps follow an evaluation by steps in a Krylov space.
const SWEEPS: u32 = 12;

/// After this many sweeps in a row without an exchange no more are made.
const IDLE: u32 = 3;

/// Of the choices that the sweeps after an evaluation exchanged, `at_first` counts those of the first sweep, and
/// `in_all` all.
#[derive(Clone, Copy)]
struct Exchanges {
    at_first: u32,
    in_all: u32,
}

/// This is the least change that evaluations left in turns without an exchange, and how many more such turns are
/// awaited.
#[derive(Clone, Copy)]
struct Patience {
    least: f64,
    turns: u32,
}

impl Patience {
    /// Returns the patience after a turn that left this much. It begins anew if this is less than half of the least.
    fn after(self, left: f64) -> Patience {
        if left < 0.5 * self.least {
            return Patience {
                least: left,
                turns: PATIENCE,
            };
        }
        Patience {
            least: self.least,
            turns: self.turns.saturating_sub(1),
        }
    }
}

/// Evaluates policies and exchanges choices until none gains. Returns whether it came to that.
pub(crate) fn iterate(
    alloc: Global,
    game: &FloatGame,
    cost: f64,
    values: &mut [f64],
    policy: &mut [u32],
) -> Result<bool, OutOfMemory>
    requires values { length values.old ≡ nodes_of game.now }
    requires policy { length policy.old ≡ nodes_of game.now }
{
    let most = sweeps_of(game, policy);
    let mut patience = Patience {
        least: f64::MAX,
        turns: PATIENCE,
    };
    for _ in 0..POLICIES {
        let left = evaluate(alloc, game, cost, policy, values)?;
        let gain = 0.5_f64.max(4.0 * left);
        if game.has_both_sides() && game.improve(false, gain, values, policy) > 0 {
            continue;
        }
        let mut next = values.to_vec(alloc)?;
        let swept = sweep(game, cost, gain, most, &mut next, policy);
        if swept.at_first == 0 && left <= ENOUGH {
            return Ok(true);
        }
        if swept.in_all == 0 {
            patience = patience.after(left);
            if patience.turns == 0 {
                return Ok(false);
            }
        }
        values.copy_from_slice(&next);
    }
    Ok(false)
}

/// Returns how many sweeps follow an evaluation. After an elimination they are about as much work as it is, and from 5
/// to 60.
fn sweeps_of(game: &FloatGame, policy: &[u32]) -> u32
    requires { length policy.now ≡ nodes_of game.now }
{
    let chain = Chain::of_policy(game, policy);
    let band = chain.band();
    if !is_narrow(chain.nodes(), band) {
        return SWEEPS;
    }
    let sweep = nearest_usize_to_f64(game.edges()) + nearest_usize_to_f64(game.choices());
    saturating_f64_to_u32(products_of(chain.nodes(), band) / (8.0 * sweep))
        .max(5)
        .min(60)
}

/// Makes at most this many sweeps, and fewer if these exchange nothing.
fn sweep(
    game: &FloatGame,
    cost: f64,
    gain: f64,
    most: u32,
    values: &mut [f64],
    policy: &mut [u32],
) -> Exchanges
    requires values { length values.old ≡ nodes_of game.now }
    requires policy { length policy.old ≡ nodes_of game.now }
{
    let at_first = game.sweep(cost, gain, values, policy).exchanged;
    let mut in_all = at_first;
    let mut idle: u32 = if at_first == 0 { 1 } else { 0 };
    for _ in 1..most.max(1) {
        if idle >= IDLE {
            break;
        }
        let exchanged = game.sweep(cost, gain, values, policy).exchanged;
        in_all = in_all.saturating_add(exchanged);
        idle = if exchanged == 0 {
            idle.saturating_add(1)
        } else {
            0
        };
    }
    Exchanges { at_first, in_all }
}
