//! The check says whether choices and ranks prove values.

ghost use Rattle.std.specs.Prelude.{◌≡◌, ◌<◌, ◌≤◌, ◌↔◌, length, slice_index, All, IsOk, IfErr, MatchOption};
ghost use Rattle.game_model.specs.declared.game.Side.TheVariants.{Max, Min};
ghost use Rattle.game_model.specs.Limits.{unit, most_states};
ghost use Rattle.game_model.specs.Query.{states, side_at};
ghost use Rattle.game_model.specs.Ranks.{Ranked, ReachesUnder};
ghost use Rattle.game_model.specs.Tables.{IsFirstOver};
ghost use Rattle.rank_certificate.specs.Ranking.{NeedsRank, IsRankedAt};
ghost use Rattle.rank_certificate.specs.Faults.{IsCauseAt, IsRankFault};

use crate::choice::check_choice;
use crate::laws::ranks_reach;
use game_model::{Question, Side, UNIT};

/// Values, choices and ranks are refused at a state for one of these causes.
#[derive(Clone, Copy, Debug, PartialEq, Eq)]
pub enum RankCause {
    /// The value is above the unit, or the state is a goal and its value is not the unit, or it is dead and its
    /// value is not 0.
    Value,
    /// The state of the maximiser has no choice, or its choice is out of range.
    Choice,
    /// The weighted average of the choice is below the value.
    Short {
        /// This is the choice.
        choice: u32,
    },
    /// No successor of the choice has a greater value, or an equal one and a smaller rank.
    NoStep {
        /// This is the choice.
        choice: u32,
    },
}

/// Values, choices and ranks have a first fault.
#[derive(Clone, Copy, Debug, PartialEq, Eq)]
pub struct RankFault {
    /// This is the state.
    pub state: u32,
    /// This is what is wrong there.
    pub cause: RankCause,
}

/// Checks values in units, choices and ranks, one of each for each state. Goals need the unit and dead states 0. If
/// another state has a positive value, the choice of the maximiser, or every choice of the minimiser, needs at least
/// this weighted average, and has to lead to a greater value or to an equal one of smaller rank. Then the plan of the
/// choices reaches the values, less any 1/m, at some horizon. The choices and ranks of other states are not read,
/// except the ranks of successors. A value above the unit, at any state, comes before every other fault. The check
/// takes no memory.
pub fn check_ranks(
    question: &Question,
    values: &[u64],
    choices: &[Option<u32>],
    ranks: &[u32],
) -> Result<(), RankFault>
    requires values { length values.now ≡ states question.now }
    requires choices { length choices.now ≡ states question.now }
    requires ranks { length ranks.now ≡ states question.now }
    ensures ok { IsOk result ↔ Ranked question.now values.now choices.now ranks.now }
    ensures reached { IsOk result → ReachesUnder question.now choices.now (slice_index values.now) }
    ensures fault { IfErr result (λ fault. IsRankFault question.now values.now choices.now ranks.now fault.state
        fault.cause) }
{
    question.invariant();
    if let Some(state) = first_over(values) {
        return Err(RankFault {
            state,
            cause: RankCause::Value,
        });
    }
    for state in 0..question.game().states() {
        if let Err(cause) = check_state(question, values, choices, ranks, state) {
            return Err(RankFault { state, cause });
        }
    }
    ranks_reach(question, values, choices, ranks);
    Ok(())
}

/// Returns the first state whose entry is above the unit.
pub fn first_over(values: &[u64]) -> Option<u32>
    requires { length values.now ≤ most_states }
    ensures { MatchOption result (All (λ v. v ≤ unit) values.now) (IsFirstOver values.now) }
{
    for (state, entry) in values.iter().enumerate() {
        if *entry > UNIT {
            return Some(state as u32);
        }
    }
    None
}

/// Checks a state.
fn check_state(
    question: &Question,
    values: &[u64],
    choices: &[Option<u32>],
    ranks: &[u32],
    state: u32,
) -> Result<(), RankCause>
    requires values { length values.now ≡ states question.now }
    requires units { All (λ v. v ≤ unit) values.now }
    requires choices { length choices.now ≡ states question.now }
    requires ranks { length ranks.now ≡ states question.now }
    requires state { state < states question.now }
    ensures ok { IsOk result ↔ IsRankedAt question.now (slice_index values.now)
        (slice_index ranks.now) choices.now state }
    ensures cause { IfErr result (IsCauseAt question.now (slice_index values.now)
        (slice_index ranks.now) choices.now state) }
{
    question.invariant();
    let value = values[state as usize];
    if question.is_goal(state) {
        return if value == UNIT {
            Ok(())
        } else {
            Err(RankCause::Value)
        };
    }
    if question.is_dead(state) {
        return if value == 0 {
            Ok(())
        } else {
            Err(RankCause::Value)
        };
    }
    if value == 0 {
        return Ok(());
    }
    match question.side(state) {
        Side::Max => check_given(question, values, choices, ranks, state),
        Side::Min => check_all(question, values, choices, ranks, state),
    }
}

/// Checks the choice that is given for a state of the maximiser.
fn check_given(
    question: &Question,
    values: &[u64],
    choices: &[Option<u32>],
    ranks: &[u32],
    state: u32,
) -> Result<(), RankCause>
    requires values { length values.now ≡ states question.now }
    requires units { All (λ v. v ≤ unit) values.now }
    requires choices { length choices.now ≡ states question.now }
    requires ranks { length ranks.now ≡ states question.now }
    requires state { state < states question.now }
    requires needs { NeedsRank question.now (slice_index values.now) state }
    requires side { side_at question.now state ≡ Max }
    ensures ok { IsOk result ↔ IsRankedAt question.now (slice_index values.now)
        (slice_index ranks.now) choices.now state }
    ensures cause { IfErr result (IsCauseAt question.now (slice_index values.now)
        (slice_index ranks.now) choices.now state) }
{
    question.invariant();
    let Some(choice) = choices[state as usize] else {
        return Err(RankCause::Choice);
    };
    if choice >= question.game().choices_of(state) {
        return Err(RankCause::Choice);
    }
    check_choice(question, values, ranks, state, choice)
}

/// Checks every choice of a state of the minimiser.
fn check_all(
    question: &Question,
    values: &[u64],
    choices: &[Option<u32>],
    ranks: &[u32],
    state: u32,
) -> Result<(), RankCause>
    requires values { length values.now ≡ states question.now }
    requires units { All (λ v. v ≤ unit) values.now }
    requires ranks { length ranks.now ≡ states question.now }
    requires state { state < states question.now }
    requires needs { NeedsRank question.now (slice_index values.now) state }
    requires side { side_at question.now state ≡ Min }
    ensures ok { IsOk result ↔ IsRankedAt question.now (slice_index values.now)
        (slice_index ranks.now) choices.now state }
    ensures cause { IfErr result (IsCauseAt question.now (slice_index values.now)
        (slice_index ranks.now) choices.now state) }
{
    question.invariant();
    for choice in 0..question.game().choices_of(state) {
        check_choice(question, values, ranks, state, choice)?;
    }
    Ok(())
}
