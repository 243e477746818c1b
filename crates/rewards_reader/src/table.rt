//! This module has the rewards of a game.

ghost use Rattle.std.specs.Prelude.{◌≡◌, ◌<◌, ◌≤◌, ◌+◌, ◌^◌, length, Some, None, slice_index_or, unwrap_or};
ghost use Rattle.game_model.specs.Game.{choices_of};
ghost use Rattle.rewards_reader.specs.Amounts.{AreAmounts, no_reward};
ghost use Rattle.rewards_reader.specs.Rewards.{place_of, reward_in};

use crate::amount::Amount;
use game_model::Game;
use std::marker::Model;

/// Holds the rewards of a game: one for each state and one for each choice. Contracts see the entries of a table, in
/// the order of the states: an entry for the state, and behind it one for each of its choices.
#[derive(Drop)]
pub struct RewardTable {
    entries: Vec<Option<Amount>>,
}

impl Model for RewardTable {
    ghost use Rattle.std.specs.Prelude.{List, Option};
    ghost use Rattle.fractions.specs.Fraction.{Fraction};
    ghost use Rattle.rewards_reader.specs.Amounts.{AreAmounts};

    ghost Value = { List (Option Fraction) };

    ghost view = { λ rewards. rewards.entries.items };

    ghost invariant = { λ rewards. AreAmounts rewards.entries.items };
}

impl RewardTable {
    /// Makes the rewards of these entries.
    pub(crate) fn new(entries: Vec<Option<Amount>>) -> RewardTable
        requires { AreAmounts entries.items }
        ensures { result ≡ entries.items }
    {
        RewardTable { entries }
    }

    /// Tells a proof what holds for every table. It does nothing.
    pub fn invariant(&self)
        ensures { AreAmounts self.now }
    {
        let _ = &self.entries;
    }

    /// Returns the reward of a state, which is 0 if no line gives one. The game is the one for which the rewards were
    /// read.
    pub fn of_state(&self, game: &Game, state: u32) -> Amount
        requires { state < length game.now }
        ensures { result ≡ reward_in game.now self.now state None }
    {
        self.at(place_of(game, state, None))
    }

    /// Returns the reward of a choice of a state, which is 0 if no line gives one. The game is the one for which the
    /// rewards were read.
    pub fn of_choice(&self, game: &Game, state: u32, choice: u32) -> Amount
        requires state { state < length game.now }
        requires choice { choice < length (choices_of game.now state) }
        ensures { result ≡ reward_in game.now self.now state (Some choice) }
    {
        self.at(place_of(game, state, Some(choice)))
    }

    // Returns the reward at a place, which is 0 if the entry has none.
    fn at(&self, place: usize) -> Amount
        ensures { result ≡ unwrap_or (slice_index_or self.now place None) no_reward }
    {
        if place >= self.entries.len() {
            return Amount::zero();
        }
        self.entries[place].unwrap_or(Amount::zero())
    }
}

/// Returns the place of a state, or of a choice of it, in a table of rewards.
pub fn place_of(game: &Game, state: u32, choice: Option<u32>) -> usize
    requires { state < length game.now }
    ensures { result ≡ place_of game.now state choice }
{
    let place = game.choices_below(state) as usize + state as usize;
    match choice {
        None => place,
        Some(choice) => place + 1 + choice as usize,
    }
}
