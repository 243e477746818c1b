//! A policy makes a chain of a game.

ghost use Rattle.std.specs.Float.{◌≤ᶠ◌, float_zero};
ghost use Rattle.std.specs.Prelude.{◌≡◌, ◌+◌, ◌^◌, ◌<◌, ◌≤◌, EachIndex, IfOk, length, slice_index, vec_len};

use crate::game::FloatGame;
use game_outside::OutOfMemory;
use std::alloc::Global;

/// The edges of a chain lead back and forth in the order of the nodes, within a band.
#[derive(Clone, Copy, Debug, PartialEq, Eq)]
pub struct Band {
    /// No edge leads further back.
    pub back: u32,
    /// No edge leads further forth.
    pub forth: u32,
}

/// A chain is what is left of a game under a policy, with one choice for each node. An entry that is no choice counts
/// as the last one.
#[derive(Drop)]
pub struct Chain<'g> {
    game: &'g FloatGame,
    policy: &'g [u32],
    ghost as_many: { length policy.now ≡ vec_len game.now.maximises },
}

/// The edges of a node are those of its choice, from `begin` up to `end`.
#[derive(Clone, Copy)]
struct Row {
    choice: usize,
    begin: u32,
    end: u32,
}

/// No edge leads further: there are at most this many nodes.
const MOST: usize = 2_147_483_647;

impl<'g> Chain<'g> {
    ghost use Rattle.float_games.specs.Nodes.{nodes_of, nodes_in, choice_in, successors_in, shares_in};

    /// Returns the chain of a policy.
    pub fn of_policy(game: &'g FloatGame, policy: &'g [u32]) -> Chain<'g>
        requires { length policy.now ≡ nodes_of game.now }
        ensures { nodes_in result ≡ nodes_of game.now }
    {
        Chain { game, policy }
    }

    /// Returns how many nodes there are.
    pub fn nodes(&self) -> usize
        ensures value { result ≡ nodes_in self.now }
        ensures few { result < 2 ^ 31 }
    {
        self.game.maximises.len()
    }

    /// Returns what each node gives, plus a cost.
    pub fn gives(&self, alloc: Global, cost: f64) -> Result<Vec<f64>, OutOfMemory>
        ensures { IfOk result (λ list. vec_len list ≡ nodes_in self.now) }
    {
        let mut list = Vec::with_capacity(alloc, self.nodes())?;
        for node in 0..self.nodes() {
            let row = self.row(node);
            list.push(self.game.gives[row.choice] + cost)?;
        }
        Ok(list)
    }

    /// Returns the share of probability with which each node leaves.
    pub fn leaves(&self, alloc: Global) -> Result<Vec<f64>, OutOfMemory>
        ensures { IfOk result (λ list. vec_len list ≡ nodes_in self.now) }
    {
        let mut list = Vec::with_capacity(alloc, self.nodes())?;
        for node in 0..self.nodes() {
            let row = self.row(node);
            list.push(self.game.leaves[row.choice])?;
        }
        Ok(list)
    }

    /// Returns the successors of a node.
    pub fn successors(&self, node: usize) -> &[u32]
        requires { node < nodes_in self.now }
        ensures list { result.now ≡ successors_in self.now node }
        ensures inside { EachIndex result.now (λ k. slice_index result.now k < nodes_in self.now) }
    {
        let row = self.row(node);
        if row.end < row.begin {
            return &[];
        }
        &self.game.to[row.begin as usize..row.end as usize]
    }

    /// Returns the shares of the edges of a node, in the order of its successors.
    pub fn shares(&self, node: usize) -> &[f64]
        requires { node < nodes_in self.now }
        ensures list { result.now ≡ shares_in self.now node }
        ensures all { length result.now ≡ length (successors_in self.now node) }
    {
        let row = self.row(node);
        if row.end < row.begin {
            return &[];
        }
        &self.game.share[row.begin as usize..row.end as usize]
    }

    /// Finds the choice and the edges of a node.
    fn row(&self, node: usize) -> Row
        requires { node < nodes_in self.now }
        ensures choice { result.choice ≡ choice_in self.now node }
        ensures within { result.choice < vec_len self.now.game.now.gives }
        ensures begin { result.begin ≡ slice_index self.now.game.now.edge_starts.items result.choice }
        ensures end { result.end ≡ slice_index self.now.game.now.edge_starts.items (result.choice + 1) }
        ensures last { result.end ≤ vec_len self.now.game.now.to }
    {
        let choice = (self.policy[node] as usize).min(self.game.gives.len() - 1);
        Row {
            choice,
            begin: self.game.edge_starts[choice],
            end: self.game.edge_starts[choice + 1],
        }
    }

    /// Makes one pass in place: each value becomes the node's sum, plus the values of its successors by their shares.
    /// Returns the greatest change.
    pub fn pass(&self, sums: &[f64], values: &mut [f64]) -> f64
        requires sums { length sums.now ≡ nodes_in self.now }
        requires values { length values.old ≡ nodes_in self.now }
        ensures { float_zero ≤ᶠ result }
    {
        let mut change = 0.0;
        let choices = self.game.gives.len();
        for node in 0..self.game.maximises.len() {
            let choice = (self.policy[node] as usize).min(choices - 1);
            let begin = self.game.edge_starts[choice];
            let end = self.game.edge_starts[choice + 1];
            let mut sum = sums[node];
            for edge in begin..end {
                sum += self.game.share[edge as usize]
                    * values[self.game.to[edge as usize] as usize];
            }
            let by = (sum - values[node]).abs();
            if by > change {
                change = by;
            }
            values[node] = sum;
        }
        change
    }

    /// Finds what one pass in place takes from values if nodes give nothing: each value, less its value after the pass.
    pub fn taken_by_pass(&self, values: &[f64], taken: &mut [f64])
        requires values { length values.now ≡ nodes_in self.now }
        requires taken { length taken.old ≡ nodes_in self.now }
        ensures { length taken.new ≡ length taken.old }
    {
        let choices = self.game.gives.len();
        let nodes = self.game.maximises.len();
        taken.copy_from_slice(values);
        for node in 0..nodes {
            let choice = (self.policy[node] as usize).min(choices - 1);
            let begin = self.game.edge_starts[choice];
            let end = self.game.edge_starts[choice + 1];
            let mut sum = 0.0;
            for edge in begin..end {
                sum += self.game.share[edge as usize] * taken[self.game.to[edge as usize] as usize];
            }
            taken[node] = sum;
        }
        for node in 0..nodes {
            taken[node] = values[node] - taken[node];
        }
    }

    /// Returns what each value misses: what its node gives, and what its successors have more, by their shares, less
    /// what the value has by the share with which the node leaves. The sum is made from differences, so it is nearly
    /// exact.
    pub fn residuals(&self, alloc: Global, values: &[f64]) -> Result<Vec<f64>, OutOfMemory>
        requires { length values.now ≡ nodes_in self.now }
        ensures { IfOk result (λ list. vec_len list ≡ nodes_in self.now) }
    {
        let mut list = Vec::with_capacity(alloc, self.nodes())?;
        for node in 0..self.nodes() {
            list.push(self.residual(values, node))?;
        }
        Ok(list)
    }

    /// Returns what the value of a node misses.
    fn residual(&self, values: &[f64], node: usize) -> f64
        requires values { length values.now ≡ nodes_in self.now }
        requires node { node < nodes_in self.now }
    {
        let row = self.row(node);
        let own = values[node];
        let mut sum = self.game.gives[row.choice] - self.game.leaves[row.choice] * own;
        for edge in row.begin..row.end {
            let there = values[self.game.to[edge as usize] as usize];
            sum += self.game.share[edge as usize] * (there - own);
        }
        sum
    }

    /// Finds how far the edges lead back and forth.
    pub fn band(&self) -> Band
        ensures back { result.back < 2 ^ 31 }
        ensures forth { result.forth < 2 ^ 31 }
    {
        let mut back: usize = 0;
        let mut forth: usize = 0;
        for node in 0..self.nodes() {
            for to in self.successors(node) {
                let to = *to as usize;
                if to < node {
                    back = back.max(node - to);
                } else {
                    forth = forth.max(to - node);
                }
            }
        }
        Band {
            back: back.min(MOST) as u32,
            forth: forth.min(MOST) as u32,
        }
    }
}
