//! A choice is worth its reward plus its weighted average over a table.

ghost use Rattle.std.specs.Prelude.{◌≡◌, ◌<◌, ◌≤◌, ◌↔◌, length, slice_index, All, IsTrue};
ghost use Rattle.game_model.specs.Game.{choices_of, choice_of};
ghost use Rattle.game_model.specs.Limits.{unit};
ghost use Rattle.game_model.specs.Query.{states};
ghost use Rattle.expected_rewards.specs.Tables.{IsCovered, IsPaid};
ghost use Rattle.reward_check.specs.Certificates.{flat_rewards};

use fixed_bellman::{gives, holds};
use game_model::Question;

/// Returns the reward of a choice.
fn reward_of(question: &Question, rewards: &[u64], state: u32, choice: u32) -> u64
    requires { state < states question.now }
    ensures { result ≡ flat_rewards question.now.game rewards.now state choice }
{
    let place = question.game().choices_below(state) + u64::from(choice);
    let place = place as usize;
    if place < rewards.len() {
        rewards[place]
    } else {
        0
    }
}

/// Returns whether the reward of a choice plus its weighted average over a table is at most the entry of the state.
pub fn is_covered(
    question: &Question,
    rewards: &[u64],
    table: &[u64],
    state: u32,
    choice: u32,
) -> bool
    requires length { length table.now ≡ states question.now }
    requires units { All (λ v. v ≤ unit) table.now }
    requires state { state < states question.now }
    requires choice { choice < length (choices_of question.now.game state) }
    ensures { IsTrue result ↔ IsCovered (slice_index table.now) (slice_index table.now state)
        (flat_rewards question.now.game rewards.now state choice) (choice_of question.now.game state choice) }
{
    question.invariant();
    let reward = reward_of(question, rewards, state, choice);
    let entry = table[state as usize];
    if entry < reward {
        return false;
    }
    holds(&question.row(state), choice, table, entry - reward)
}

/// Returns whether the reward of a choice plus its weighted average over a table is at least the entry of the state.
pub fn is_paid(question: &Question, rewards: &[u64], table: &[u64], state: u32, choice: u32) -> bool
    requires length { length table.now ≡ states question.now }
    requires units { All (λ v. v ≤ unit) table.now }
    requires state { state < states question.now }
    requires choice { choice < length (choices_of question.now.game state) }
    ensures { IsTrue result ↔ IsPaid (slice_index table.now) (slice_index table.now state)
        (flat_rewards question.now.game rewards.now state choice) (choice_of question.now.game state choice) }
{
    question.invariant();
    let reward = reward_of(question, rewards, state, choice);
    let entry = table[state as usize];
    if entry <= reward {
        return true;
    }
    gives(&question.row(state), choice, table, entry - reward)
}
