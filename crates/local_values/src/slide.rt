//! This module finds how far values of a policy slide when each move costs some units.

ghost use Rattle.std.specs.Prelude.{◌≡◌, ◌+◌, ◌^◌, ◌<◌, IfOk, IfSome, length, vec_len};
ghost use Rattle.float_games.specs.Nodes.{nodes_of, nodes_in};

use crate::elimination::Factors;
use crate::evaluation::expected_moves;
use crate::limits::is_soon_eliminated;
use float_games::{Band, Chain, FloatGame};
use game_outside::OutOfMemory;
use std::alloc::Global;

/// Nodes are let go in at most this many turns.
const TURNS: u32 = 12;

/// In a turn, nodes are looked at this many times in each direction.
const PASSES: u32 = 4;

/// A value slides by this many units in any case, and by the cost of a move for each of this many moves.
#[derive(Drop)]
pub struct Slide {
    /// These are the units.
    pub drops: Vec<f64>,
    /// These are the moves.
    pub moves: Vec<f64>,
}

/// Finds how far each node slides when a move costs this many units and each node has only its room. A policy may be
/// expected to make more moves than floats count. Nodes that would slide further than their room stop there, and the
/// others slide by the moves until the policy leaves or stops. Returns nothing if moves are not found. The only error
/// is that memory ran out.
pub fn find_slide(
    alloc: Global,
    game: &FloatGame,
    policy: &[u32],
    cost: f64,
    rooms: &[f64],
) -> Result<Option<Slide>, OutOfMemory>
    requires policy { length policy.now ≡ nodes_of game.now }
    requires rooms { length rooms.now ≡ nodes_of game.now }
    ensures drops { IfOk result (λ found. IfSome found (λ slide. vec_len slide.drops ≡ nodes_of game.now)) }
    ensures moves { IfOk result (λ found. IfSome found (λ slide. vec_len slide.moves ≡ nodes_of game.now)) }
{
    let Some(moves) = expected_moves(alloc, game, policy)? else {
        return Ok(None);
    };
    let chain = Chain::of_policy(game, policy);
    let band = chain.band();
    if fit(&moves, cost, rooms) || !is_soon_eliminated(chain.nodes(), band) {
        let drops = vec![in alloc; 0.0; chain.nodes()]?;
        return Ok(Some(Slide { drops, moves }));
    }
    let mut stops = vec![in alloc; true; chain.nodes()]?;
    let mut slide = slide_past(alloc, &chain, band, rooms, &stops)?;
    for _ in 0..TURNS {
        if !let_go(alloc, &chain, cost, rooms, &slide, &mut stops)? {
            break;
        }
        slide = slide_past(alloc, &chain, band, rooms, &stops)?;
    }
    Ok(Some(slide))
}

/// Returns whether no node would slide further than its room.
fn fit(moves: &[f64], cost: f64, rooms: &[f64]) -> bool {
    moves
        .iter()
        .zip(rooms)
        .all(|(count, room)| cost * *count <= *room)
}

/// Finds the slide of a chain that stops at some nodes, which slide as far as they have room.
fn slide_past(
    alloc: Global,
    chain: &Chain,
    band: Band,
    rooms: &[f64],
    stops: &[bool],
) -> Result<Slide, OutOfMemory>
    requires band { band.back + band.forth + 1 < 2 ^ 32 }
    requires rooms { length rooms.now ≡ nodes_in chain.now }
    requires stops { length stops.now ≡ nodes_in chain.now }
    ensures drops { IfOk result (λ slide. vec_len slide.drops ≡ nodes_in chain.now) }
    ensures moves { IfOk result (λ slide. vec_len slide.moves ≡ nodes_in chain.now) }
{
    let factors = Factors::past_stops(alloc, chain, band, stops)?;
    let mut drops = vec![in alloc; 0.0; chain.nodes()]?;
    let mut moves = vec![in alloc; 1.0; chain.nodes()]?;
    for node in 0..chain.nodes() {
        if stops[node] {
            drops[node] = rooms[node];
            moves[node] = 0.0;
        }
    }
    factors.solve(&mut drops);
    factors.solve(&mut moves);
    Ok(Slide { drops, moves })
}

/// Lets nodes go that slide less far than they have room, as passes tell. Returns whether one of them had stopped.
fn let_go(
    alloc: Global,
    chain: &Chain,
    cost: f64,
    rooms: &[f64],
    slide: &Slide,
    stops: &mut [bool],
) -> Result<bool, OutOfMemory>
    requires drops { vec_len slide.now.drops ≡ nodes_in chain.now }
    requires moves { vec_len slide.now.moves ≡ nodes_in chain.now }
    requires rooms { length rooms.now ≡ nodes_in chain.now }
    requires stops { length stops.old ≡ nodes_in chain.now }
    ensures { length stops.new ≡ length stops.old }
{
    let mut whole = slide.drops.to_vec(alloc)?;
    for (entry, count) in whole.iter_mut().zip(&slide.moves) {
        *entry += cost * *count;
    }
    let mut is_any = false;
    for _ in 0..PASSES {
        for node in 0..chain.nodes() {
            is_any = is_let_go(chain, cost, rooms, node, &mut whole, stops) || is_any;
        }
        for node in (0..chain.nodes()).rev() {
            is_any = is_let_go(chain, cost, rooms, node, &mut whole, stops) || is_any;
        }
    }
    Ok(is_any)
}

/// Looks at a node once more, and lets it go if it slides less far than was found before. Returns whether it had
/// stopped.
fn is_let_go(
    chain: &Chain,
    cost: f64,
    rooms: &[f64],
    node: usize,
    whole: &mut [f64],
    stops: &mut [bool],
) -> bool
    requires node { node < nodes_in chain.now }
    requires rooms { length rooms.now ≡ nodes_in chain.now }
    requires whole { length whole.old ≡ nodes_in chain.now }
    requires stops { length stops.old ≡ nodes_in chain.now }
    ensures whole { length whole.new ≡ length whole.old }
    ensures stops { length stops.new ≡ length stops.old }
{
    let mut sum = cost;
    for (to, share) in chain.successors(node).iter().zip(chain.shares(node)) {
        sum += *share * whole.get(*to as usize).copied().unwrap_or(0.0);
    }
    if !(sum < whole[node]) {
        return false;
    }
    whole[node] = sum;
    let stopped = stops[node];
    stops[node] = false;
    stopped
}
