//! This module has the choices of one state.

ghost use Rattle.std.specs.Prelude.{◌≡◌, ℕ, ◌+◌, ◌-◌, ◌*◌, ◌^◌, ◌<◌, ◌≤◌, length, slice_index, map, take, drop};
ghost use Rattle.game_model.specs.Limits.{total_bound};

use crate::game::Edge;
use std::marker::Model;

/// A row has the choices of a state, after one look at the lists of its game: the bounds of the edges of each choice,
/// its total (or 0 if that is 2^64 or more), and the successors and weights of all edges. Code that goes over the
/// choices of a state takes its row first: otherwise the fields of the game would be read anew between loads of words
/// that threads share.
#[derive(Drop)]
pub struct Row<'g> {
    pub(crate) bounds: &'g [u32],
    pub(crate) totals: &'g [u64],
    pub(crate) to: &'g [u32],
    pub(crate) low: &'g [u64],
    pub(crate) high: &'g [u64],
}

impl<'g> Model for Row<'g> {
    ghost use Rattle.std.specs.Prelude.{List};
    ghost use Rattle.game_model.specs.Game.{Distribution};

    ghost Value = { List Distribution };

    ghost use Rattle.game_model.specs.OfRow.{row_of, IsRowOf};

    ghost view = { row_of };

    ghost invariant = { IsRowOf };
}

impl<'g> Row<'g> {
    ghost use Rattle.game_model.specs.Game.{Distribution, IsDistribution, choice_among, edge_in};

    /// Tells a proof which facts hold for every row. It does nothing.
    #[inline(always)]
    pub fn invariant(&self)
        ensures some { 0 < length self.now }
        ensures distributions { (c : ℕ) → c < length self.now → IsDistribution (choice_among self.now c) }
    {
        let _ = &self.to;
    }

    /// Returns the same row once more, for a call that is not inlined: a row that is handed to such a call no longer
    /// lies in registers.
    #[inline(always)]
    pub fn again(&self) -> Row<'g>
        ensures { result ≡ self.now }
    {
        Row {
            bounds: self.bounds,
            totals: self.totals,
            to: self.to,
            low: self.low,
            high: self.high,
        }
    }

    /// Returns the number of choices, which is at least 1.
    #[inline(always)]
    pub fn choices(&self) -> u32
        ensures { result ≡ length self.now }
    {
        (self.bounds.len() - 1) as u32
    }

    /// Returns the total of a choice, which is the sum of its weights.
    #[inline(always)]
    pub fn total(&self, choice: u32) -> u128
        requires { choice < length self.now }
        ensures value { result ≡ (choice_among self.now choice).total }
        ensures positive { 0 < result }
        ensures small { result < total_bound }
    {
        let total = self.totals[choice as usize];
        if total == 0 {
            return self.again().added_total(choice);
        }
        u128::from(total)
    }

    /// Adds up the total of a choice anew.
    #[inline(never)]
    fn added_total(&self, choice: u32) -> u128
        requires { choice < length self.now }
        ensures { result ≡ (choice_among self.now choice).total }
    {
        self.invariant();
        let mut total: u128 = 0;
        for place in 0..self.edge_count(choice) {
            total += self.edge(choice, place).weight;
        }
        total
    }

    /// Returns the number of edges of a choice, which is at least 1.
    #[inline(always)]
    pub fn edge_count(&self, choice: u32) -> u32
        requires { choice < length self.now }
        ensures { result ≡ length (choice_among self.now choice).edges }
    {
        self.bounds[choice as usize + 1] - self.bounds[choice as usize]
    }

    /// Returns the successors of a choice, in rising order.
    #[inline(always)]
    pub fn successors(&self, choice: u32) -> &'g [u32]
        requires { choice < length self.now }
        ensures { result.now ≡ map (λ e. e.to) (choice_among self.now choice).edges }
    {
        let from = self.bounds[choice as usize];
        let to = self.bounds[choice as usize + 1];
        part(self.to, from as usize, to as usize)
    }

    /// Returns the weights of a choice whose total fits 64 bits, in the order of its successors.
    #[inline(always)]
    pub fn narrow_weights(&self, choice: u32) -> &'g [u64]
        requires choice { choice < length self.now }
        requires narrow { (choice_among self.now choice).total < 2 ^ 64 }
        ensures { result.now ≡ map (λ e. e.weight) (choice_among self.now choice).edges }
    {
        let from = self.bounds[choice as usize];
        let to = self.bounds[choice as usize + 1];
        part(self.low, from as usize, to as usize)
    }

    /// Returns an edge of a choice. The successors rise with the place.
    #[inline(always)]
    pub fn edge(&self, choice: u32, place: u32) -> Edge
        requires choice { choice < length self.now }
        requires place { place < length (choice_among self.now choice).edges }
        ensures { result ≡ edge_in (choice_among self.now choice) place }
    {
        let at = self.bounds[choice as usize] as usize + place as usize;
        Edge {
            to: self.to[at],
            weight: weight_of(self.low[at], entry(self.high, at)),
        }
    }
}

/// Returns a part of a list.
#[inline(always)]
pub(crate) fn part<T>(xs: &[T], from: usize, to: usize) -> &[T]
    requires order { from ≤ to }
    requires within { to ≤ length xs.now }
    ensures { result.now ≡ take (to - from) (drop from xs.now) }
{
    &xs[from..to]
}

/// Returns the entry at a place, or 0 past the end.
#[inline(always)]
fn entry(xs: &[u64], at: usize) -> u64
    ensures { result ≡ slice_index xs.now at }
{
    if at < xs.len() { xs[at] } else { 0 }
}

/// Returns the weight that has these two words.
#[inline(always)]
fn weight_of(low: u64, high: u64) -> u128
    ensures { result ≡ low + 2 ^ 64 * high }
{
    u128::from(low) + 18_446_744_073_709_551_616 * u128::from(high)
}
