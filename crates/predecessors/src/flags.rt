//! This module keeps a flag for each choice of a game.

ghost use Rattle.std.specs.Prelude.{◌≡◌, ℕ, ◌+◌, ◌<◌, length, IfOk, OnOk};
ghost use Rattle.game_model.specs.Game.{choices_of, choices_below};
ghost use Rattle.predecessors.specs.Flags.{number, flag, AreAnswers, AreAnswersBefore};

use game_model::Game;
use game_outside::OutOfMemory;
use std::alloc::Global;
use std::marker::Model;

/// Each choice of a game has one flag, in the order of the game.
#[derive(Drop)]
pub struct ChoiceFlags {
    flags: Vec<bool>,
}

impl Model for ChoiceFlags {
    ghost use Rattle.std.specs.Prelude.{List, Bool};

    ghost Value = { List Bool };

    ghost view = { λ f. f.flags.items };
}

impl ChoiceFlags {
    /// Asks the test about each choice, by its state and its place among the choices of that state, and keeps the
    /// answers. The only error is that memory ran out.
    pub fn of_game<F: Fn(u32, u32) -> bool>(
        alloc: Global,
        game: &Game,
        holds: F,
    ) -> Result<ChoiceFlags, OutOfMemory>
        requires { (s c : ℕ) → s < length game.now → c < length (choices_of game.now s) → F.pre holds s c }
        ensures { IfOk result (λ flags. AreAnswers game.now (F.post holds) flags) }
    {
        let choices = game.choices_below(game.states());
        let mut flags = Vec::with_capacity(alloc, choices as usize)?;
        for state in 0..game.states() {
            push_state(game, &holds, state, &mut flags)?;
        }
        Ok(ChoiceFlags { flags })
    }

    /// Returns the flag of a choice. There must be as many flags as the game has choices.
    pub fn has(&self, game: &Game, state: u32, choice: u32) -> bool
        requires state { state < length game.now }
        requires choice { choice < length (choices_of game.now state) }
        requires many { length self.now ≡ choices_below game.now (length game.now) }
        ensures { result ≡ flag game.now self.now state choice }
    {
        self.flags[number_of(game, state, choice)]
    }
}

// Adds the flags of the choices of a state.
fn push_state<F: Fn(u32, u32) -> bool>(
    game: &Game,
    holds: &F,
    state: u32,
    flags: &mut Vec<bool>,
) -> Result<(), OutOfMemory>
    requires state { state < length game.now }
    requires callable { (s c : ℕ) → s < length game.now → c < length (choices_of game.now s) → F.pre holds.now s c }
    requires before { AreAnswersBefore game.now (F.post holds.now) state 0 flags.old.items }
    ensures { OnOk result (AreAnswersBefore game.now (F.post holds.now) (state + 1) 0 flags.new.items) }
{
    for choice in 0..game.choices_of(state) {
        flags.push(holds(state, choice))?;
    }
    Ok(())
}

// Returns the number of a choice among all choices of the game.
fn number_of(game: &Game, state: u32, choice: u32) -> usize
    requires state { state < length game.now }
    requires choice { choice < length (choices_of game.now state) }
    ensures value { result ≡ number game.now state choice }
    ensures within { result < choices_below game.now (length game.now) }
{
    game.choices_below(state) as usize + choice as usize
}
