//! The check of a choice says whether it is ranked.

ghost use Rattle.std.specs.Prelude.{◌≡◌, ◌<◌, ◌≤◌, ◌↔◌, length, slice_index, All, IsTrue, IsOk, IfErr};
ghost use Rattle.game_model.specs.Game.{choices_of, choice_of};
ghost use Rattle.game_model.specs.Query.{states};
ghost use Rattle.game_model.specs.Limits.{unit};
ghost use Rattle.game_model.specs.Ranks.{IsRankedChoice};
ghost use Rattle.rank_certificate.specs.Ranking.{IsOnward, LeadsOnward};
ghost use Rattle.rank_certificate.specs.Faults.{IsLackOf};

use crate::check::RankCause;
use fixed_bellman::gives;
use game_model::Question;

/// Checks that a choice gives its state at least the value, and that it leads to a greater value or to an equal one of
/// smaller rank.
pub fn check_choice(
    question: &Question,
    values: &[u64],
    ranks: &[u32],
    state: u32,
    choice: u32,
) -> Result<(), RankCause>
    requires values { length values.now ≡ states question.now }
    requires units { All (λ v. v ≤ unit) values.now }
    requires ranks { length ranks.now ≡ states question.now }
    requires state { state < states question.now }
    requires choice { choice < length (choices_of question.now.game state) }
    ensures ok { IsOk result ↔ IsRankedChoice (slice_index values.now) (slice_index ranks.now) state
        (choice_of question.now.game state choice) }
    ensures lack { IfErr result (IsLackOf (slice_index values.now) (slice_index ranks.now) state
        (choice_of question.now.game state choice) choice) }
{
    question.invariant();
    if !gives(&question.row(state), choice, values, values[state as usize]) {
        return Err(RankCause::Short { choice });
    }
    if !leads_onward(question, values, ranks, state, choice) {
        return Err(RankCause::NoStep { choice });
    }
    Ok(())
}

/// Returns whether a choice has a successor of greater value, or of equal value and smaller rank.
fn leads_onward(question: &Question, values: &[u64], ranks: &[u32], state: u32, choice: u32) -> bool
    requires values { length values.now ≡ states question.now }
    requires ranks { length ranks.now ≡ states question.now }
    requires state { state < states question.now }
    requires choice { choice < length (choices_of question.now.game state) }
    ensures { IsTrue result ↔ LeadsOnward (slice_index values.now) (slice_index ranks.now) state
        (choice_of question.now.game state choice) }
{
    question.invariant();
    for place in 0..question.game().edge_count(state, choice) {
        let to = question.game().edge(state, choice, place).to;
        if is_onward(values, ranks, state, to) {
            return true;
        }
    }
    false
}

/// Returns whether `to` has a greater value than `state`, or an equal value and a smaller rank.
fn is_onward(values: &[u64], ranks: &[u32], state: u32, to: u32) -> bool
    requires ranks { length ranks.now ≡ length values.now }
    requires state { state < length values.now }
    requires to { to < length values.now }
    ensures { IsTrue result ↔ IsOnward (slice_index values.now) (slice_index ranks.now) state to }
{
    let value = values[state as usize];
    let there = values[to as usize];
    value < there || (there == value && ranks[to as usize] < ranks[state as usize])
}
