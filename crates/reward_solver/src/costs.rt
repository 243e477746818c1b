//! This module has what rewards cost the minimiser.

ghost use Rattle.std.specs.Prelude.{◌≡◌, ◌<◌, ◌≤◌, All, IfOk, length, vec_len};
ghost use Rattle.game_model.specs.Game.{choices_of, choices_below};
ghost use Rattle.game_model.specs.Limits.{unit};
ghost use Rattle.game_model.specs.Query.{states};

use game_model::{Game, Marks, Question, Side, UNIT};
use game_outside::OutOfMemory;
use std::alloc::Global;

/// A choice of this cost is never taken.
const TOO_MUCH: u64 = UNIT + 1;

/// Returns the states that are not finite.
pub fn infinite_states(
    alloc: Global,
    question: &Question,
    finite: &Marks,
) -> Result<Marks, OutOfMemory>
    requires { length finite.now ≡ states question.now }
    ensures { IfOk result (λ marks. length marks ≡ states question.now) }
{
    question.invariant();
    let states = question.game().states();
    let mut list = Vec::with_capacity(alloc, states as usize)?;
    for state in 0..states {
        list.push(!finite.has(state))?;
    }
    Ok(Marks::of_list(list))
}

/// Returns what choices cost the minimiser: their rewards, or too much if a choice of the minimiser leads out of the
/// finite states.
pub(crate) fn costs_of(
    alloc: Global,
    question: &Question,
    finite: &Marks,
    rewards: &[u64],
) -> Result<Vec<u64>, OutOfMemory>
    requires { length finite.now ≡ states question.now }
{
    let game = question.game();
    let mut costs = Vec::with_capacity(alloc, rewards.len())?;
    for state in 0..game.states() {
        push_costs(question, finite, rewards, state, &mut costs)?;
    }
    Ok(costs)
}

/// Adds the costs of the choices of a state.
fn push_costs(
    question: &Question,
    finite: &Marks,
    rewards: &[u64],
    state: u32,
    costs: &mut Vec<u64>,
) -> Result<(), OutOfMemory>
    requires finite { length finite.now ≡ states question.now }
    requires state { state < states question.now }
{
    let game = question.game();
    let is_own = question.side(state) == Side::Min;
    for choice in 0..game.choices_of(state) {
        let reward = rewards.get(costs.len()).copied().unwrap_or(0);
        let is_barred = is_own && leads_out(game, finite, state, choice);
        costs.push(if is_barred { TOO_MUCH } else { reward })?;
    }
    Ok(())
}

/// Returns whether some successor of a choice is not finite.
fn leads_out(game: &Game, finite: &Marks, state: u32, choice: u32) -> bool
    requires finite { length finite.now ≡ length game.now }
    requires state { state < length game.now }
    requires choice { choice < length (choices_of game.now state) }
{
    game.invariant();
    (0..game.edge_count(state, choice)).any(|place| !finite.has(game.edge(state, choice, place).to))
}

/// Returns what the unit is above each value.
pub fn complement(alloc: Global, values: &[u64]) -> Result<Vec<u64>, OutOfMemory>
    ensures many { IfOk result (λ list. vec_len list ≡ length values.now) }
    ensures units { IfOk result (λ list. All (λ v. v ≤ unit) list.items) }
{
    let list = values
        .iter()
        .map(|value| UNIT.saturating_sub(*value))
        .collect(alloc)?;
    Ok(list)
}
