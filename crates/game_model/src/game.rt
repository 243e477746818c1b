//! This module has finite turn-based stochastic games: for each state a list of choices, and for each choice a
//! distribution over the states. Games with only one side are Markov decision processes (Baier and Katoen, Principles
//! of Model Checking, 2008, chapter 10).

ghost use Rattle.std.specs.Prelude.{◌≡◌, ◌+◌, ◌-◌, ◌*◌, ◌^◌, ◌<◌, ◌≤◌, List, length, All, map};
ghost use Rattle.game_model.specs.Limits.{total_bound};

use crate::row::{Row, part};
use std::marker::Model;

/// A side chooses at a state: the maximiser or the minimiser of the probability (Condon, The complexity of stochastic
/// games, 1992).
#[derive(Clone, Copy, Debug, PartialEq, Eq)]
pub enum Side {
    /// This side maximises the probability.
    Max,
    /// This side minimises the probability.
    Min,
}

impl Side {
    ghost use Rattle.game_model.specs.Dual.{other_side};

    /// Returns the opponent.
    pub fn other(self) -> Side
        ensures { result ≡ other_side self }
    {
        match self {
            Side::Max => Side::Min,
            Side::Min => Side::Max,
        }
    }
}

/// An edge leads to a successor of a choice, and has a weight.
#[derive(Clone, Copy, Debug, PartialEq, Eq)]
pub struct Edge {
    /// The edge leads to this successor.
    pub to: u32,
    /// The weight is at least 1. The probability is the weight over the total of the choice.
    pub weight: u128,
}

/// A choice of a state is a distribution over the states. It has edges, in the order of their successors, and the total
/// of their weights, which is below 2^77.
#[derive(Debug, Drop)]
pub struct Choice {
    total: u128,
    edges: Vec<Edge>,
}

impl Model for Choice {
    ghost use Rattle.game_model.specs.Game.{Distribution, IsDistribution};

    ghost Value = { Distribution };

    ghost view = { λ c. record { total = c.total; edges = c.edges.items } };

    ghost invariant = { λ c. IsDistribution (record { total = c.total; edges = c.edges.items }) };
}

impl Choice {
    ghost use Rattle.game_model.specs.Game.{Distribution, IsDistribution, IsRising, total_of};

    /// Returns the choice with these edges. Its total is the sum of their weights.
    pub fn of_edges(edges: Vec<Edge>) -> Choice
        requires some { 0 < length edges.items }
        requires rising { IsRising edges.items }
        requires weights { All (λ e. 1 ≤ e.weight) edges.items }
        requires small { total_of edges.items < total_bound }
        ensures total { result.total ≡ total_of edges.items }
        ensures edges { result.edges ≡ edges.items }
    {
        let total = edges.iter().map(|edge| edge.weight).sum();
        Choice { total, edges }
    }

    /// Tells a proof which facts hold for every choice. It does nothing.
    pub fn invariant(&self)
        ensures { IsDistribution self.now }
    {
        let _ = &self.total;
    }

    /// Returns the sum of the weights.
    pub fn total(&self) -> u128
        ensures { result ≡ self.now.total }
    {
        self.total
    }

    /// Returns the edges, in the order of their successors.
    pub fn edges(&self) -> &[Edge]
        ensures { result.now ≡ self.now.edges }
    {
        &self.edges
    }
}

/// A game has for each state a list of at least one choice. The states are numbered from 0, and so are the choices of a
/// state and the edges of a choice.
///
/// It lies in flat lists: where the choices of each state begin, where the edges of each choice begin and its total,
/// and for each edge its successor and its weight. If a total is 2^64 or more, 0 is kept for it, and it is added up
/// when it is asked for. A weight has a low word, and a high word if some total is 2^64 or more; past the end of the
/// high words each is 0. So a choice takes 12 bytes and an edge 12, and an edge takes 8 more up to the last choice
/// whose weights are that wide.
#[derive(Debug, Drop)]
pub struct Game {
    pub(crate) first_choice: Vec<u32>,
    pub(crate) first_edge: Vec<u32>,
    pub(crate) totals: Vec<u64>,
    pub(crate) to: Vec<u32>,
    pub(crate) low: Vec<u64>,
    pub(crate) high: Vec<u64>,
}

impl Model for Game {
    ghost use Rattle.std.specs.Prelude.{List};
    ghost use Rattle.game_model.specs.Game.{Distribution};

    ghost Value = { List (List Distribution) };

    ghost use Rattle.game_model.specs.OfGame.{game_of_flat, IsFlatGame};

    ghost view = { game_of_flat };

    ghost invariant = { IsFlatGame };
}

impl Game {
    ghost use Rattle.game_model.specs.Game.{Distribution, IsGame, choices_of, choice_of, edge_of, choices_below, edges_below, successors_between};

    /// Tells a proof which facts hold for every game. It does nothing.
    pub fn invariant(&self)
        ensures { IsGame self.now }
    {
        let _ = &self.to;
    }

    /// Returns the number of states.
    pub fn states(&self) -> u32
        ensures { result ≡ length self.now }
    {
        (self.first_choice.len() - 1) as u32
    }

    /// Returns the number of choices of a state, which is at least 1.
    pub fn choices_of(&self, state: u32) -> u32
        requires { state < length self.now }
        ensures { result ≡ length (choices_of self.now state) }
    {
        self.first_choice[state as usize + 1] - self.first_choice[state as usize]
    }

    /// Returns how many choices the states below `state` have together. If `state` is the number of states, that is all
    /// choices.
    pub fn choices_below(&self, state: u32) -> u64
        requires { state ≤ length self.now }
        ensures value { result ≡ choices_below self.now state }
        ensures small { result < 2 ^ 32 }
    {
        u64::from(self.first_choice[state as usize])
    }

    /// Returns how many edges the states below `state` have together. If `state` is the number of states, that is all
    /// edges.
    pub fn edges_below(&self, state: u32) -> u64
        requires { state ≤ length self.now }
        ensures value { result ≡ edges_below self.now state }
        ensures small { result < 2 ^ 32 }
    {
        u64::from(self.first_edge[self.first_choice[state as usize] as usize])
    }

    /// Returns the choices of a state.
    #[inline(always)]
    pub fn row(&self, state: u32) -> Row<'_>
        requires { state < length self.now }
        ensures { result ≡ choices_of self.now state }
    {
        let first = self.first_choice[state as usize] as usize;
        let last = self.first_choice[state as usize + 1] as usize;
        Row {
            bounds: part(&self.first_edge, first, last + 1),
            totals: part(&self.totals, first, last),
            to: &self.to,
            low: &self.low,
            high: &self.high,
        }
    }

    /// Returns the total of a choice, which is the sum of its weights.
    #[inline(always)]
    pub fn total(&self, state: u32, choice: u32) -> u128
        requires state { state < length self.now }
        requires choice { choice < length (choices_of self.now state) }
        ensures value { result ≡ (choice_of self.now state choice).total }
        ensures positive { 0 < result }
        ensures small { result < total_bound }
    {
        self.row(state).total(choice)
    }

    /// Returns the number of edges of a choice, which is at least 1.
    #[inline(always)]
    pub fn edge_count(&self, state: u32, choice: u32) -> u32
        requires state { state < length self.now }
        requires choice { choice < length (choices_of self.now state) }
        ensures { result ≡ length (choice_of self.now state choice).edges }
    {
        self.row(state).edge_count(choice)
    }

    /// Returns the successors of a choice, in rising order.
    #[inline(always)]
    pub fn successors(&self, state: u32, choice: u32) -> &[u32]
        requires state { state < length self.now }
        requires choice { choice < length (choices_of self.now state) }
        ensures { result.now ≡ map (λ e. e.to) (choice_of self.now state choice).edges }
    {
        self.row(state).successors(choice)
    }

    /// Returns the successors of all edges of the states from `from` up to and not including `to`, in order.
    pub fn successors_between(&self, from: u32, to: u32) -> &[u32]
        requires order { from ≤ to }
        requires inside { to ≤ length self.now }
        ensures list { result.now ≡ successors_between self.now from to }
        ensures states { All (λ t. t < length self.now) result.now }
    {
        self.invariant();
        let begin = self.first_edge[self.first_choice[from as usize] as usize];
        let end = self.first_edge[self.first_choice[to as usize] as usize];
        part(&self.to, begin as usize, end as usize)
    }

    /// Returns an edge of a choice. The successors rise with the place.
    #[inline(always)]
    pub fn edge(&self, state: u32, choice: u32, place: u32) -> Edge
        requires state { state < length self.now }
        requires choice { choice < length (choices_of self.now state) }
        requires place { place < length (choice_of self.now state choice).edges }
        ensures { result ≡ edge_of self.now state choice place }
    {
        self.row(state).edge(choice, place)
    }
}
