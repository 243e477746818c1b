//! This module has the generator, and the parts of a choice.

ghost use Rattle.std.specs.Prelude.{◌≡◌, ◌+◌, ◌%◌, ◌<◌, ◌≤◌};
ghost use Rattle.drawn_game.specs.Drawings.{next_draw};
ghost use Rattle.drawn_game.specs.Rules.{first_part, other_part};
ghost use Rattle.drawn_game.specs.Limits.{least_states};

use crate::limits::{MODULUS, MULTIPLIER};
use game_model::Edge;
use std::marker::Model;

/// A generator has its last draw, which at the start is the seed.
#[derive(Drop)]
pub struct Draws {
    last: u32,
}

impl Model for Draws {
    ghost use Rattle.std.specs.Prelude.{ℕ};

    ghost Value = { ℕ };

    ghost view = { λ d. d.last };
}

impl Draws {
    /// Returns a generator that has made no draw.
    pub fn from_seed(seed: u32) -> Draws
        ensures { result ≡ seed }
    {
        Draws { last: seed }
    }

    /// Makes the next draw (Lehmer 1951; Park and Miller 1988).
    #[tactic(auto, unfolding(crate::specs::Drawings::next_draw))]
    pub fn draw(&mut self) -> u32
        ensures value { result ≡ next_draw self.old }
        ensures last { self.new ≡ next_draw self.old }
    {
        self.last = (u64::from(self.last) * MULTIPLIER % MODULUS) as u32;
        self.last
    }

    /// Draws the first part of a choice, to the goal or the sink.
    pub fn first_part(&mut self, states: u32) -> Edge
        requires { least_states ≤ states }
        ensures value { result ≡ (first_part states self.old).value }
        ensures last { self.new ≡ (first_part states self.old).last }
        ensures inside { result.to < states }
        ensures weight { (1 ≤ result.weight) × (result.weight ≤ 9) }
    {
        let to = if self.draw() % 2 == 1 {
            states - 2
        } else {
            states - 1
        };
        let weight = self.weight();
        Edge { to, weight }
    }

    /// Draws another part of a choice, to any state.
    pub fn other_part(&mut self, states: u32) -> Edge
        requires { least_states ≤ states }
        ensures value { result ≡ (other_part states self.old).value }
        ensures last { self.new ≡ (other_part states self.old).last }
        ensures inside { result.to < states }
        ensures weight { (1 ≤ result.weight) × (result.weight ≤ 9) }
    {
        let to = self.draw() % states;
        let weight = self.weight();
        Edge { to, weight }
    }

    /// Draws a weight from 1 to 9.
    fn weight(&mut self) -> u128
        ensures value { result ≡ 1 + next_draw self.old % 9 }
        ensures last { self.new ≡ next_draw self.old }
        ensures small { (1 ≤ result) × (result ≤ 9) }
    {
        u128::from(1 + self.draw() % 9)
    }
}
