//! This module gives the rewards of a game in units.

ghost use Rattle.std.specs.Prelude.{◌≡◌, ◌+◌, ◌<◌, ◌≤◌, IfOk, OnOk, Some, None, length};
ghost use Rattle.rewards_reader.specs.Rewards.{reward_in};
ghost use Rattle.game_model.specs.Game.{choices_of};
ghost use Rattle.reward_units.specs.Units.{most_places, most_units, units_below, units_above};
ghost use Rattle.reward_units.specs.Rounded.{exact_in, paid_units, units_one_way, ArePaidUnits};
ghost use Rattle.reward_units.specs.inside.Listed.{ArePaidBefore};

use crate::units::{units_above, units_below};
use game_model::Game;
use game_outside::OutOfMemory;
use rewards_reader::{Amount, RewardTable};
use std::alloc::Global;

/// Rewards that are no whole number of units are rounded one way.
#[derive(Clone, Copy, Debug, PartialEq, Eq)]
pub enum Rounding {
    /// They are rounded down, as lower values need it.
    Down,
    /// They are rounded up, as upper values need it.
    Up,
}

/// Returns what a turn is paid, in units of so many places: one entry for each choice, state by state. An entry is the
/// reward of the state plus that of the choice, each rounded by itself. The only error is that memory ran out.
pub fn rewards_in_units(
    alloc: Global,
    game: &Game,
    rewards: &RewardTable,
    places: u32,
    rounding: Rounding,
) -> Result<Vec<u64>, OutOfMemory>
    requires { places ≤ most_places }
    ensures { IfOk result (λ list.
        ArePaidUnits game.now (paid_units rounding (exact_in game.now rewards.now) places) list.items) }
{
    let choices = game.choices_below(game.states());
    let mut list = Vec::with_capacity(alloc, choices as usize)?;
    for state in 0..game.states() {
        push_state(game, rewards, places, rounding, state, &mut list)?;
    }
    Ok(list)
}

/// Adds what the choices of a state pay.
fn push_state(
    game: &Game,
    rewards: &RewardTable,
    places: u32,
    rounding: Rounding,
    state: u32,
    list: &mut Vec<u64>,
) -> Result<(), OutOfMemory>
    requires places { places ≤ most_places }
    requires state { state < length game.now }
    requires before { ArePaidBefore game.now (paid_units rounding (exact_in game.now rewards.now) places) state 0
        list.old.items }
    ensures { OnOk result (ArePaidBefore game.now (paid_units rounding (exact_in game.now rewards.now) places)
        (state + 1) 0 list.new.items) }
{
    let own = state_units(game, rewards, places, rounding, state);
    for choice in 0..game.choices_of(state) {
        let more = choice_units(game, rewards, places, rounding, state, choice);
        list.push(own + more)?;
    }
    Ok(())
}

/// Returns the units of the reward of a state.
fn state_units(
    game: &Game,
    rewards: &RewardTable,
    places: u32,
    rounding: Rounding,
    state: u32,
) -> u64
    requires places { places ≤ most_places }
    requires state { state < length game.now }
    ensures value { result ≡ units_one_way rounding (reward_in game.now rewards.now state None) places }
    ensures small { result ≤ most_units }
{
    units_of(rewards.of_state(game, state), places, rounding)
}

/// Returns the units of the reward of a choice.
fn choice_units(
    game: &Game,
    rewards: &RewardTable,
    places: u32,
    rounding: Rounding,
    state: u32,
    choice: u32,
) -> u64
    requires places { places ≤ most_places }
    requires state { state < length game.now }
    requires choice { choice < length (choices_of game.now state) }
    ensures value { result ≡ units_one_way rounding (reward_in game.now rewards.now state (Some choice)) places }
    ensures small { result ≤ most_units }
{
    units_of(rewards.of_choice(game, state, choice), places, rounding)
}

/// Returns the units of a reward.
fn units_of(reward: Amount, places: u32, rounding: Rounding) -> u64
    requires { places ≤ most_places }
    ensures value { result ≡ units_one_way rounding reward places }
    ensures small { result ≤ most_units }
{
    reward.invariant();
    match rounding {
        Rounding::Down => units_below(reward.num(), reward.den(), places),
        Rounding::Up => units_above(reward.num(), reward.den(), places),
    }
}
