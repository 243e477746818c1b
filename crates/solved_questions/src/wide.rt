//! This module says when bounds are far apart, and how many rounds are made then.

ghost use Rattle.std.specs.Prelude.{◌≤◌};
ghost use Rattle.game_model.specs.Limits.{unit};
ghost use Rattle.bracket_engine.specs.Limits.{most_rounds};

use formula_reader::Bound;
use game_model::{Game, UNIT};
use plan_text::Plan;
use verdicts::settle;

/// No rounds are made if bounds are at most this many units apart.
const MOST_APART: u64 = 1_000;

/// At most this many rounds are made.
const MOST_ROUNDS: u64 = 10_000;

/// The rounds times the edges of the game are at most this many.
const MOST_STEPS: u64 = 200_000_000;

/// Returns whether the bounds of a plan are near each other at each of these states, or settle the bound there.
pub(crate) fn are_close(bound: &Bound, starts: &[u32], plan: &Plan) -> bool {
    !starts.iter().any(|state| is_open(bound, plan, *state) && width(plan, *state) > MOST_APART)
}

/// Returns whether the bounds of a plan at a state do not settle the bound.
pub(crate) fn is_open(bound: &Bound, plan: &Plan, state: u32) -> bool {
    let lower = entry_of(&plan.lower, state);
    let upper = entry_of(&plan.upper, state);
    !settle(bound, lower, upper).is_settling()
}

// Returns by how many units the bounds of a state are apart.
fn width(plan: &Plan, state: u32) -> u64 {
    entry_of(&plan.upper, state).saturating_sub(entry_of(&plan.lower, state))
}

/// Returns the entry of a state, at most the unit.
pub fn entry_of(table: &[u64], state: u32) -> u64
    ensures { result ≤ unit }
{
    table.get(state as usize).copied().unwrap_or(0).min(UNIT)
}

/// Returns how many rounds are made over a game.
pub fn rounds_for(game: &Game) -> u32
    ensures { result ≤ most_rounds }
{
    let edges = game.edges_below(game.states());
    (MOST_STEPS / edges.max(1)).min(MOST_ROUNDS) as u32
}
