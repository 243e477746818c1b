//! This module draws the game of a seed, and asks the question about it.

ghost use Rattle.std.specs.Prelude.{◌≡◌, ◌≤◌, ◌==◌, map, length, IfOk};
ghost use Rattle.std.specs.List.{range_with_len};
ghost use Rattle.game_model.specs.Limits.{most_states};
ghost use Rattle.drawn_game.specs.Limits.{least_states, most_seed};
ghost use Rattle.drawn_game.specs.Rules.{drawn_game};

use crate::draws::Draws;
use crate::states::{add_stay, draw_state};
use game_model::{Game, GameBuilder, Question, Side};
use game_outside::OutOfMemory;
use std::alloc::{AllocError, Global};
use std::marker::Model;

/// This game was drawn by a seed, with the side that chooses at each state.
///
/// State 0 is the initial state. The last state is the sink, and the state before it is the goal.
#[derive(Drop)]
pub struct Drawn {
    game: Game,
    sides: Vec<Side>,
}

impl Model for Drawn {
    ghost use Rattle.drawn_game.specs.Rules.{SidedGame};
    ghost use Rattle.drawn_game.specs.Asked.{IsSided};

    ghost Value = { SidedGame };

    ghost view = { λ d. record { game = d.game; sides = d.sides.items } };

    ghost invariant = { λ d. IsSided (record { game = d.game; sides = d.sides.items }) };
}

impl Drawn {
    ghost use Rattle.drawn_game.specs.Asked.{question_of, IsSided};

    /// Tells a proof which facts hold for every drawn game. It does nothing.
    pub fn invariant(&self)
        ensures { IsSided self.now }
    {
        let _ = &self.sides;
    }

    /// Returns the game.
    pub fn game(&self) -> &Game
        ensures { result.now ≡ self.now.game }
    {
        &self.game
    }

    /// Returns the side of each state.
    pub fn sides(&self) -> &[Side]
        ensures { result.now ≡ self.now.sides }
    {
        &self.sides
    }

    /// Returns the question with which probability the goal is reached, which the maximiser wants. It fails only if
    /// memory runs out.
    pub fn question(&self, alloc: Global) -> Result<Question<'_>, OutOfMemory>
        ensures { IfOk result (λ question. question ≡ question_of self.now) }
    {
        let states = self.game.states();
        let sides = Vec::from_slice(alloc, &self.sides)?;
        let goals = marks_of(alloc, states - 2, states)?;
        let deads = vec![in alloc; false; states as usize]?;
        Ok(Question::build(&self.game, sides, goals, deads))
    }
}

/// Returns the marks of `states` states, of which one is marked.
fn marks_of(alloc: Global, marked: u32, states: u32) -> Result<Vec<bool>, AllocError>
    ensures { IfOk result (λ marks. marks.items ≡ map (λ s. s == marked) (range_with_len 0 states)) }
{
    (0..states).map(|state| state == marked).collect(alloc)
}

/// Draws the game of a seed. It fails only if memory runs out.
pub fn draw_game(alloc: Global, seed: u32, states: u32) -> Result<Drawn, OutOfMemory>
    requires seed { (1 ≤ seed) × (seed ≤ most_seed) }
    requires states { (least_states ≤ states) × (states ≤ most_states) }
    ensures exact { IfOk result (λ drawn. drawn ≡ drawn_game seed states) }
    ensures many { IfOk result (λ drawn. length drawn.game ≡ states) }
{
    let mut draws = Draws::from_seed(seed);
    let mut builder = GameBuilder::new(alloc)?;
    let mut sides = Vec::with_capacity(alloc, states as usize)?;
    for _state in 0..states - 2 {
        let side = draw_state(alloc, &mut draws, states, &mut builder)?;
        sides.push(side)?;
    }
    add_stay(alloc, states - 2, &mut builder, &mut sides)?;
    add_stay(alloc, states - 1, &mut builder, &mut sides)?;
    Ok(Drawn {
        game: builder.finish(),
        sides,
    })
}
