//! This module has questions about games, and marks of states. A question is a reachability query: with which
//! probability is a goal reached if the maximiser and the minimiser play as well as they can (Condon 1992; with
//! coalitions of players Chen, Forejt, Kwiatkowska, Parker and Simaitis, Automatic verification of competitive
//! stochastic systems, TACAS 2012)?

ghost use Rattle.std.specs.Prelude.{◌≡◌, ℕ, ◌<◌, ◌≤◌, List, length, slice_index_or, Bool, true, false, count_by};
ghost use Rattle.game_model.specs.Limits.{most_states};

use crate::game::{Game, Side};
use crate::row::Row;
use std::marker::Model;

/// A question has a game, and says which side chooses at each state, and which states are goals and which are dead. A
/// play that comes to a dead state reaches no goal any more.
#[derive(Drop)]
pub struct Question<'g> {
    game: &'g Game,
    sides: Vec<Side>,
    goals: Vec<bool>,
    deads: Vec<bool>,
}

impl<'g> Model for Question<'g> {
    ghost use Rattle.game_model.specs.Query.{Query, IsQuery};

    ghost Value = { Query };

    ghost view = { λ q. record {
      game = q.game.now;
      sides = q.sides.items;
      goals = q.goals.items;
      deads = q.deads.items;
    } };

    ghost invariant = { λ q. IsQuery (record {
      game = q.game.now;
      sides = q.sides.items;
      goals = q.goals.items;
      deads = q.deads.items;
    }) };
}

impl<'g> Question<'g> {
    ghost use Rattle.game_model.specs.Game.{choices_of};
    ghost use Rattle.game_model.specs.Query.{Query, IsQuery, states, is_goal, is_dead, side_at};

    /// Returns the question that these lists pose. No state is both goal and dead.
    pub fn build(game: &'g Game, sides: Vec<Side>, goal: Vec<bool>, dead: Vec<bool>) -> Question<'g>
        requires sides { length sides.items ≡ length game.now }
        requires goal { length goal.items ≡ length game.now }
        requires dead { length dead.items ≡ length game.now }
        requires apart { (s : ℕ) → slice_index_or goal.items s false ≡ true
            → slice_index_or dead.items s false ≡ false }
        ensures game { result.game ≡ game.now }
        ensures sides { result.sides ≡ sides.items }
        ensures goals { result.goals ≡ goal.items }
        ensures deads { result.deads ≡ dead.items }
    {
        game.invariant();
        Question {
            game,
            sides,
            goals: goal,
            deads: dead,
        }
    }

    /// Tells a proof which facts hold for every question. It does nothing.
    pub fn invariant(&self)
        ensures { IsQuery self.now }
    {
        let _ = &self.game;
    }

    /// Returns the game.
    pub fn game(&self) -> &'g Game
        ensures { result.now ≡ self.now.game }
    {
        self.game
    }

    /// Returns the choices of a state.
    #[inline(always)]
    pub fn row(&self, state: u32) -> Row<'g>
        requires { state < states self.now }
        ensures { result ≡ choices_of self.now.game state }
    {
        self.game.row(state)
    }

    /// Returns the side that chooses at a state.
    pub fn side(&self, state: u32) -> Side
        requires { state < states self.now }
        ensures { result ≡ side_at self.now state }
    {
        self.sides[state as usize]
    }

    /// Returns whether a state is a goal.
    pub fn is_goal(&self, state: u32) -> bool
        requires { state < states self.now }
        ensures { result ≡ is_goal self.now state }
    {
        self.goals[state as usize]
    }

    /// Returns whether a state is dead.
    pub fn is_dead(&self, state: u32) -> bool
        requires { state < states self.now }
        ensures { result ≡ is_dead self.now state }
    {
        self.deads[state as usize]
    }
}

/// Marks hold one truth value for each state.
#[derive(Drop)]
pub struct Marks {
    marks: Vec<bool>,
}

impl Model for Marks {
    ghost use Rattle.std.specs.Prelude.{◌≤◌, List, Bool, length};
    ghost use Rattle.game_model.specs.Limits.{most_states};

    ghost Value = { List Bool };

    ghost view = { λ m. m.marks.items };

    ghost invariant = { λ m. length m.marks.items ≤ most_states };
}

impl Marks {
    /// Returns the marks of this list.
    pub fn of_list(marks: Vec<bool>) -> Marks
        requires { length marks.items ≤ most_states }
        ensures { result ≡ marks.items }
    {
        Marks { marks }
    }

    /// Returns whether a state is marked.
    pub fn has(&self, state: u32) -> bool
        requires { state < length self.now }
        ensures { result ≡ slice_index_or self.now state false }
    {
        self.marks[state as usize]
    }

    /// Returns the number of marked states.
    pub fn count(&self) -> u32
        ensures { result ≡ count_by (λ b. b) self.now }
    {
        self.marks.iter().filter(|mark| **mark).count() as u32
    }
}
