//! This module takes exact steps: it finds what choices give by a table, in 128 bits.

ghost use Rattle.std.specs.Prelude.{◌≡◌, ◌<◌, ◌⊎◌, length};
ghost use Rattle.game_model.specs.Game.{choices_of};
ghost use Rattle.game_model.specs.Query.{states};

use crate::costs::cost_of;
use crate::table::UnitTable;
use float_games::Bound;
use game_model::{Question, Row, Side, UNIT};

/// An excess compares what a choice gives by a table with an entry of its state. `moving` is the sum of the weights
/// that lead to other states. `above` and `below` are the sums of these weights times how far the entries of those
/// states are above this entry, or below it. What the choice costs counts as below.
#[derive(Clone, Copy)]
struct Excess {
    above: u128,
    below: u128,
    moving: u128,
}

impl Excess {
    /// Returns the excess with one more edge.
    fn with(self, weight: u128, there: u64, own: u64) -> Excess {
        let up = u128::from(there.saturating_sub(own));
        let down = u128::from(own.saturating_sub(there));
        Excess {
            above: self.above.wrapping_add(weight.wrapping_mul(up)),
            below: self.below.wrapping_add(weight.wrapping_mul(down)),
            moving: self.moving.wrapping_add(weight),
        }
    }

    /// Returns the excess when the choice, of this total weight, costs this many units.
    fn less(self, total: u128, cost: u64) -> Excess {
        Excess {
            above: self.above,
            below: self
                .below
                .wrapping_add(total.wrapping_mul(u128::from(cost))),
            moving: self.moving,
        }
    }

    /// Returns by how many units the entry is above what the choice gives, rounded up.
    fn fall(self) -> u64 {
        quotient_up(self.below.saturating_sub(self.above), self.moving)
    }

    /// Returns by how many units the entry is below what the choice gives, rounded up.
    fn rise(self) -> u64 {
        quotient_up(self.above.saturating_sub(self.below), self.moving)
    }
}

/// Returns a quotient rounded up. Mostly there is nothing to divide.
fn quotient_up(sum: u128, total: u128) -> u64 {
    if sum == 0 {
        return 0;
    }
    Divided::of(sum, total).rounded(Bound::Upper)
}

/// This is the whole part of a quotient, and whether it has a rest.
#[derive(Clone, Copy)]
struct Divided {
    whole: u64,
    has_rest: bool,
}

impl Divided {
    /// Divides. The quotient is 0 if the divisor is 0, and the unit if it is beyond 64 bits. A divisor of 1, as in a
    /// choice of one edge of weight 1, needs no division.
    fn of(sum: u128, total: u128) -> Divided {
        if total <= 1 {
            let whole = if total == 0 { 0 } else { sum };
            return Divided {
                whole: u64::try_from(whole).unwrap_or(UNIT),
                has_rest: false,
            };
        }
        if let (Ok(sum), Ok(total)) = (u64::try_from(sum), u64::try_from(total)) {
            return Divided {
                whole: sum / total,
                has_rest: sum % total != 0,
            };
        }
        Divided {
            whole: u64::try_from(sum / total).unwrap_or(UNIT),
            has_rest: sum % total != 0,
        }
    }

    /// Rounds down for a lower bound, and up for an upper one.
    fn rounded(self, bound: Bound) -> u64 {
        if bound == Bound::Upper && self.has_rest {
            self.whole.saturating_add(1)
        } else {
            self.whole
        }
    }
}

/// Totals below this, times the unit, fit 64 bits.
const SMALL: u128 = 16_384;

/// Returns what a choice of a state gives, less its cost, compared with this entry. Edges to the state itself are left
/// out.
fn excess_of(row: &Row<'_>, entries: &[u64], state: u32, choice: u32, own: u64, cost: u64) -> Excess
    requires { choice < length row.now }
{
    let excess = excess_of_edges(row, entries, state, choice, own);
    if cost == 0 {
        return excess;
    }
    excess.less(row.total(choice), cost)
}

/// Returns the same for a choice that costs nothing.
fn excess_of_edges(row: &Row<'_>, entries: &[u64], state: u32, choice: u32, own: u64) -> Excess
    requires { choice < length row.now }
{
    if row.total(choice) < 18_446_744_073_709_551_616 {
        let weights = row.narrow_weights(choice);
        return if row.total(choice) < SMALL {
            small_excess(row.successors(choice), weights, entries, state, own)
        } else {
            narrow_excess(row.successors(choice), weights, entries, state, own)
        };
    }
    let mut excess = Excess {
        above: 0,
        below: 0,
        moving: 0,
    };
    for place in 0..row.edge_count(choice) {
        let edge = row.edge(choice, place);
        if let (true, Some(there)) = (edge.to != state, entries.get(edge.to as usize).copied()) {
            excess = excess.with(edge.weight, there, own);
        }
    }
    excess
}

/// Returns the same for weights of 64 bits.
fn narrow_excess(
    successors: &[u32],
    weights: &[u64],
    entries: &[u64],
    state: u32,
    own: u64,
) -> Excess {
    let mut excess = Excess {
        above: 0,
        below: 0,
        moving: 0,
    };
    for (to, weight) in successors.iter().zip(weights) {
        if let (true, Some(there)) = (*to != state, entries.get(*to as usize).copied()) {
            excess = excess.with(u128::from(*weight), there, own);
        }
    }
    excess
}

/// Returns the same if all sums fit 64 bits.
fn small_excess(
    successors: &[u32],
    weights: &[u64],
    entries: &[u64],
    state: u32,
    own: u64,
) -> Excess {
    let mut above: u64 = 0;
    let mut below: u64 = 0;
    let mut moving: u64 = 0;
    for (to, weight) in successors.iter().zip(weights) {
        if let (true, Some(there)) = (*to != state, entries.get(*to as usize).copied()) {
            above = above.wrapping_add(weight.wrapping_mul(there.saturating_sub(own)));
            below = below.wrapping_add(weight.wrapping_mul(own.saturating_sub(there)));
            moving = moving.wrapping_add(*weight);
        }
    }
    Excess {
        above: u128::from(above),
        below: u128::from(below),
        moving: u128::from(moving),
    }
}

/// Returns the side whose planned choice a bound goes by.
fn planner(bound: Bound) -> Side {
    match bound {
        Bound::Lower => Side::Max,
        Bound::Upper => Side::Min,
    }
}

/// Returns the entry of a state if it holds when the side of the bound plays this choice. Else it returns the next
/// entry that holds by the entries of the other states.
pub(crate) fn held_entry(
    question: &Question,
    table: &UnitTable,
    bound: Bound,
    state: u32,
    planned: u32,
    costs: Option<&[u64]>,
) -> u64
    requires state { state < states question.now }
    requires many { length table.now ≡ states question.now }
{
    let own = table.get(state);
    let row = question.row(state);
    let count = row.choices();
    let is_planned = question.side(state) == planner(bound) && planned < count;
    let first = if is_planned { planned } else { 0 };
    let end = if is_planned { planned + 1 } else { count };
    let mut most: u64 = 0;
    for choice in first..end {
        let cost = cost_of(costs, question.game(), state, choice);
        let excess = excess_of(&row, table.entries(), state, choice, own, cost);
        most = most.max(match bound {
            Bound::Lower => excess.fall(),
            Bound::Upper => excess.rise(),
        });
    }
    match bound {
        Bound::Lower => own.saturating_sub(most),
        Bound::Upper => own.saturating_add(most).min(UNIT),
    }
}

/// An entry of a state comes with the choice that gives it.
#[derive(Clone, Copy, Debug, PartialEq, Eq)]
pub struct Entry {
    /// This is the entry, in units.
    pub value: u64,
    /// This is the choice.
    pub choice: u32,
}

/// Returns the entry of a state that leads to no other state of its component: what its best choice gives by the table,
/// rounded down or up. A choice that leads only back to the state counts for nothing. If there is no other, the entry
/// is 0. The choices have these costs, if there are any.
pub fn single_entry(
    question: &Question,
    table: &UnitTable,
    bound: Bound,
    state: u32,
    costs: Option<&[u64]>,
) -> Entry
    requires { state < states question.now }
    ensures { result.choice < length (choices_of question.now.game state) }
{
    question.invariant();
    let mut best: Option<Entry> = None;
    let row = question.row(state);
    for choice in 0..row.choices() {
        let cost = cost_of(costs, question.game(), state, choice);
        let excess = excess_of(&row, table.entries(), state, choice, 0, cost);
        if excess.moving == 0 {
            continue;
        }
        let gain = excess.above.saturating_sub(excess.below);
        let value = Divided::of(gain, excess.moving).rounded(bound);
        best = Some(better(question.side(state), best, Entry { value, choice }));
    }
    best.unwrap_or(Entry {
        value: 0,
        choice: 0,
    })
}

/// Returns the better entry for a side, the first one of equal ones.
fn better(side: Side, best: Option<Entry>, other: Entry) -> Entry
    ensures { (result ≡ other) ⊎ (best ≡ Some result) }
{
    let Some(best) = best else {
        return other;
    };
    let is_better = match side {
        Side::Max => best.value < other.value,
        Side::Min => other.value < best.value,
    };
    if is_better { other } else { best }
}
