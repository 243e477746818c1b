//! This module keeps what an elimination did, to solve by it.

ghost use Rattle.std.specs.Prelude.{◌≡◌, ◌+◌, ◌*◌, ◌^◌, ◌<◌, ◌≤◌, EachIndex, IfOk, length, slice_get, vec_len};
ghost use Rattle.std.specs.Float.{float_zero};
ghost use Rattle.float_games.specs.Nodes.{nodes_in};

use crate::elimination::band::{Shape, eliminate, row_of};
use crate::vectors::product;
use float_games::{Band, Chain};
use game_outside::OutOfMemory;
use std::alloc::Global;

/// The factors of a chain are its matrix after the elimination, and what leaves each row.
#[derive(Drop)]
pub struct Factors {
    shape: Shape,
    cells: Vec<f64>,
    outs: Vec<f64>,
    ghost room: { vec_len cells ≡ shape.rows * shape.width },
    ghost all: { vec_len outs ≡ shape.rows },
}

impl Factors {
    ghost use Rattle.local_values.specs.Rows.{rows_of, LeavesNothing};

    /// Finds the factors of a chain whose edges stay in this band. Other edges are left out. The only error is that
    /// memory ran out.
    pub fn of_chain(alloc: Global, chain: &Chain, band: Band) -> Result<Factors, OutOfMemory>
        requires { band.back + band.forth + 1 < 2 ^ 32 }
        ensures { IfOk result (λ f. rows_of f ≡ nodes_in chain.now) }
    {
        let none = vec![in alloc; false; chain.nodes()]?;
        Factors::past_stops(alloc, chain, band, &none)
    }

    /// Finds the factors of the chain that leaves at once from the nodes where it stops.
    pub(crate) fn past_stops(
        alloc: Global,
        chain: &Chain,
        band: Band,
        stops: &[bool],
    ) -> Result<Factors, OutOfMemory>
        requires band { band.back + band.forth + 1 < 2 ^ 32 }
        requires stops { length stops.now ≡ nodes_in chain.now }
        ensures { IfOk result (λ f. rows_of f ≡ nodes_in chain.now) }
    {
        let shape = Shape::of_band(chain.nodes(), band.back, band.forth);
        let mut cells = vec![in alloc; 0.0; shape.cells()]?;
        let mut leaks = chain.leaves(alloc)?;
        for row in 0..shape.rows {
            if stops[row] {
                leaks[row] = 1.0;
            } else {
                fill_row(
                    shape.back,
                    row,
                    chain,
                    row_of(&mut cells, shape.width, row, shape.rows),
                );
            }
        }
        let mut outs = vec![in alloc; 0.0; shape.rows]?;
        eliminate(shape, &mut cells, &mut leaks, &mut outs);
        Ok(Factors { shape, cells, outs })
    }

    /// Turns sums into values: each is the sum of its node, plus the values of its successors by their shares. If the
    /// elimination left nothing that leaves a row, its value is 0.
    pub fn solve(&self, sums: &mut [f64])
        requires { length sums.old ≡ rows_of self.now }
        ensures { EachIndex sums.new (λ k. LeavesNothing self.now k → slice_get sums.new k ≡ Some float_zero) }
    {
        for row in (0..self.shape.rows).rev() {
            sums[row] = self.sum(sums, row);
        }
        for row in 0..self.shape.rows {
            sums[row] = self.value(sums, row);
        }
    }

    /// Returns the sum of a row, with those of the rows after it that were added to it.
    fn sum(&self, sums: &[f64], row: usize) -> f64
        requires row { row < rows_of self.now }
        requires sums { length sums.now ≡ rows_of self.now }
    {
        let begin = self.shape.begin(row) + self.shape.back + 1;
        let most = self.shape.forth().min(self.shape.rows - 1 - row);
        let factors = &self.cells[begin..begin + most];
        sums[row] + product(factors, &sums[row + 1..row + 1 + most])
    }

    /// Returns the value of a row by its sum and the values of the rows before it.
    fn value(&self, values: &[f64], row: usize) -> f64
        requires row { row < rows_of self.now }
        requires values { length values.now ≡ rows_of self.now }
        ensures { LeavesNothing self.now row → result ≡ float_zero }
    {
        let out = self.outs[row];
        if !(0.0 < out) {
            return 0.0;
        }
        let end = self.shape.begin(row) + self.shape.back;
        let most = self.shape.back.min(row);
        let shares = &self.cells[end - most..end];
        (values[row] + product(shares, &values[row - most..row])) / out
    }
}

/// Puts the shares of a node into its row.
fn fill_row(back: usize, row: usize, chain: &Chain, target: &mut [f64])
    requires back { back < 2 ^ 32 }
    requires row { row < nodes_in chain.now }
{
    let successors = chain.successors(row);
    let shares = chain.shares(row);
    for place in 0..successors.len() {
        let shifted = successors[place] as usize + back;
        if row <= shifted && shifted - row < target.len() {
            target[shifted - row] += shares[place];
        }
    }
}
