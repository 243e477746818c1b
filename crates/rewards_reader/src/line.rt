//! This module reads the lines behind the header.

ghost use Rattle.std.specs.Prelude.{◌≡◌, IfOk};
ghost use Rattle.text_lines.specs.Text.{fields_of, number_of};
ghost use Rattle.rewards_reader.specs.Amounts.{amount_said};
ghost use Rattle.rewards_reader.specs.Lines.{choice_line, line_said, line_with, state_line};
ghost use Rattle.rewards_reader.specs.Rewards.{IsOfGame};

use crate::amount::Amount;
use crate::fault::RewardsCause;
use crate::number::read_amount;
use game_model::Game;
use text_lines::{first_field, whole};

/// A line gives a reward to a state, or to a choice of it.
#[derive(Clone, Copy, Debug, PartialEq, Eq)]
pub struct RewardLine {
    /// The line names this state.
    pub state: u32,
    /// The line names this choice of the state, or none.
    pub choice: Option<u32>,
    /// This is the reward.
    pub reward: Amount,
}

/// Reads what a line says by itself, or gives its first fault.
pub fn read_line(game: &Game, line: &[u8]) -> Result<RewardLine, RewardsCause>
    ensures said { result ≡ line_said game.now (fields_of line.now) }
    ensures inside { IfOk result (λ said. IsOfGame game.now said.state said.choice) }
{
    let Some((state, rest)) = first_field(line) else {
        return Err(RewardsCause::FieldCount);
    };
    let Some((second, rest)) = first_field(rest) else {
        return Err(RewardsCause::FieldCount);
    };
    let Some((third, rest)) = first_field(rest) else {
        return state_line(game, state, second);
    };
    if first_field(rest).is_some() {
        return Err(RewardsCause::FieldCount);
    }
    choice_line(game, state, second, third)
}

// Reads a line `STATE REWARD`.
fn state_line(game: &Game, state: &[u8], reward: &[u8]) -> Result<RewardLine, RewardsCause>
    ensures said { result ≡ state_line game.now (number_of state.now) reward.now }
    ensures inside { IfOk result (λ said. IsOfGame game.now said.state said.choice) }
{
    let Some(state) = whole(state) else {
        return Err(RewardsCause::BadField);
    };
    if state >= u64::from(game.states()) {
        return Err(RewardsCause::StateOutOfRange);
    }
    line_with(state as u32, None, reward)
}

// Reads a line `STATE CHOICE REWARD`.
fn choice_line(
    game: &Game,
    state: &[u8],
    choice: &[u8],
    reward: &[u8],
) -> Result<RewardLine, RewardsCause>
    ensures said { result ≡ choice_line game.now (number_of state.now) (number_of choice.now) reward.now }
    ensures inside { IfOk result (λ said. IsOfGame game.now said.state said.choice) }
{
    let Some(state) = whole(state) else {
        return Err(RewardsCause::BadField);
    };
    let Some(choice) = whole(choice) else {
        return Err(RewardsCause::BadField);
    };
    if state >= u64::from(game.states()) {
        return Err(RewardsCause::StateOutOfRange);
    }
    let state = state as u32;
    if choice >= u64::from(game.choices_of(state)) {
        return Err(RewardsCause::ChoiceOutOfRange);
    }
    line_with(state, Some(choice as u32), reward)
}

// Reads the reward of a line.
fn line_with(state: u32, choice: Option<u32>, reward: &[u8]) -> Result<RewardLine, RewardsCause>
    ensures said { result ≡ line_with state choice (amount_said reward.now) }
    ensures state { IfOk result (λ said. said.state ≡ state) }
    ensures choice { IfOk result (λ said. said.choice ≡ choice) }
{
    match read_amount(reward) {
        Err(cause) => Err(cause),
        Ok(reward) => Ok(RewardLine {
            state,
            choice,
            reward,
        }),
    }
}
