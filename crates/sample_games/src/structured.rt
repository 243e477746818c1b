//! These are structured games of one player. Their weights are per cent, or per ten thousand for the contract.

pub mod contract;
mod numbered;
pub mod retransmission;
pub mod robot;
pub mod shared_coin;

use crate::draft::question;
use game_model::{Game, Question, Side};
use std::alloc::Global;

/// A model has a game and its goal states.
#[derive(Drop)]
pub struct Model {
    pub game: Game,
    pub goal: Vec<bool>,
}

impl Model {
    /// Asks how likely a goal can be reached by a player of this side, who chooses everywhere.
    pub fn question(&self, alloc: Global, side: Side) -> Option<Question<'_>> {
        let states = self.game.states() as usize;
        question(
            &self.game,
            vec![in alloc; side; states].ok()?,
            self.goal.clone().ok()?,
            vec![in alloc; false; states].ok()?,
        )
    }
}
