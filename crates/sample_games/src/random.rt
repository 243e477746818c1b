//! These are random small games, the same for the same seed.

ghost use Rattle.std.specs.Prelude.{◌<◌, ◌≤◌};

use crate::draft::{Draft, merged};
use game_model::Game;
use std::alloc::Global;

/// The numbers are drawn one after another (a linear congruential generator: Knuth, The Art of Computer Programming,
/// volume 2, section 3.2.1).
#[derive(Drop)]
pub struct Draw {
    state: u64,
}

impl Draw {
    /// Begins the numbers of a seed.
    pub fn new(seed: u64) -> Draw {
        Draw { state: seed }
    }

    /// Draws the next number, from the least one to the most, or the least if that is above the most.
    pub fn between(&mut self, least: u32, most: u32) -> u32
        ensures above { least ≤ result }
        ensures within { least ≤ most → result ≤ most }
    {
        let count = most.saturating_sub(least) as usize + 1;
        least + self.below(count) as u32
    }

    /// Draws the next number, below a limit.
    pub fn below(&mut self, limit: usize) -> usize
        requires { 0 < limit }
        ensures { result < limit }
    {
        self.state = self
            .state
            .wrapping_mul(6_364_136_223_846_793_005)
            .wrapping_add(1_442_695_040_888_963_407);
        (self.state >> 33) as usize % limit
    }
}

/// These numbers say which games are drawn. Each one except the first is the greatest that a game may have.
#[derive(Clone, Copy)]
pub struct Shape {
    pub least_states: u32,
    pub most_states: u32,
    pub most_choices: u32,
    pub most_successors: u32,
    pub most_weight: u32,
    /// At most this many choices of the game may have several successors.
    pub most_tosses: u32,
}

/// Draws a random game.
pub fn random_game(alloc: Global, draw: &mut Draw, shape: &Shape) -> Option<Game> {
    let states = draw.between(shape.least_states, shape.most_states);
    let mut draft = Draft::new(alloc, states);
    let mut tosses = shape.most_tosses;
    for _state in 0..states {
        tosses = add_state(alloc, draw, shape, states, &mut draft, tosses)?;
    }
    draft.game(alloc)
}

// Adds the next state. It returns how many of the later choices may have several successors.
fn add_state(
    alloc: Global,
    draw: &mut Draw,
    shape: &Shape,
    states: u32,
    draft: &mut Draft,
    tosses: u32,
) -> Option<u32> {
    let mut left = tosses;
    for _choice in 0..draw.between(1, shape.most_choices) {
        let most = if left > 0 { shape.most_successors } else { 1 };
        let successors = draw.between(1, most);
        if successors > 1 {
            left = left.saturating_sub(1);
        }
        draft.choice(
            alloc,
            &random_edges(alloc, draw, shape, states, successors)?,
        )?;
    }
    draft.end_state(alloc)?;
    Some(left)
}

// Draws the edges of a choice with at most this many successors.
fn random_edges(
    alloc: Global,
    draw: &mut Draw,
    shape: &Shape,
    states: u32,
    successors: u32,
) -> Option<Vec<(u32, u64)>> {
    let mut parts = Vec::new(alloc);
    for _part in 0..successors {
        let to = draw.between(0, states.saturating_sub(1));
        let weight = draw.between(1, shape.most_weight);
        parts.push((to, u64::from(weight))).ok()?;
    }
    merged(alloc, &parts)
}
