//! This module checks a certificate of rewards.

ghost use Rattle.std.specs.Prelude.{◌≡◌, ◌<◌, ◌↔◌, ◌⊎◌, ℕ, true, IsTrue, IsOk, IfErr};
ghost use Rattle.game_model.specs.Query.{states, is_goal};
ghost use Rattle.reward_check.specs.Certificates.{said, IsSound};
ghost use Rattle.reward_check.specs.Parts.{HasZeros, GoalsHaveZeros, IsPassedAt, IsPassed, IsAccepted};
ghost use Rattle.reward_check.specs.Faults.{IsPlanless, IsFirstWrong, IsFirstUnpassed, IsFirstGoalFault, IsRewardFault};

use crate::choice::check_choice;
use crate::laws::accepted_rewards_are_sound;
use crate::parts::Part;
use crate::tables::RewardTables;
use crate::taken::{looks_at, missing, taken};

/// A certificate of rewards is refused at a state for one of these causes.
#[derive(Clone, Copy, Debug, PartialEq, Eq)]
pub enum RewardCause {
    /// The state is a goal, and one of its values is not 0 or is no number.
    Goal,
    /// The reply of the minimiser is missing or out of range.
    Reply,
    /// The choice has a successor without an upper value.
    Leaves {
        /// This is the choice.
        choice: u32,
    },
    /// The reward of the choice, rounded up, plus the weighted average of the upper values of its successors is above
    /// the upper value of the state.
    Above {
        /// This is the choice.
        choice: u32,
    },
    /// No successor of the choice has a smaller rank.
    NoStep {
        /// This is the choice.
        choice: u32,
    },
    /// The choice of the maximiser is missing or out of range.
    Choice,
    /// No successor of the choice has an infinite lower value, and its reward, rounded down, plus the weighted average
    /// of the lower values of its successors is below the lower value of the state.
    Short {
        /// This is the choice.
        choice: u32,
    },
    /// No successor of the choice has both an infinite lower value and a smaller rank, and not all successors have
    /// infinite lower values and ranks that are no greater.
    Away {
        /// This is the choice.
        choice: u32,
    },
}

/// A certificate of rewards has a first fault.
#[derive(Clone, Copy, Debug, PartialEq, Eq)]
pub struct RewardFault {
    /// This is the state.
    pub state: u32,
    /// This is what is wrong there.
    pub cause: RewardCause,
}

/// Checks a certificate of rewards: first the goals, whose values have to be 0, and then four parts. The replies have
/// to hold the upper values. By the ranks the plays under the replies have to end, from each state that has an upper
/// value. The choices have to pay the lower values that are numbers above 0. By the ranks the plays under the choices
/// have to miss the goals, from the states of infinite lower value.
///
/// Each part looks at the states in their order, and at a state at the choices that may be taken, by rising number. At
/// the states of the side whose plan it is, this is only the planned choice. At the states of the other side it is
/// every choice. The check takes no memory.
pub fn check_rewards(tables: &RewardTables<'_>) -> Result<(), RewardFault>
    ensures ok { IsOk result ↔ IsAccepted (said tables.now) }
    ensures sound { IsOk result → IsSound (said tables.now) }
    ensures fault { IfErr result (λ fault. IsRewardFault (said tables.now) fault.state fault.cause) }
{
    check_goals(tables)?;
    check_part(tables, Part::Upper)?;
    check_part(tables, Part::Ranks)?;
    check_part(tables, Part::Lower)?;
    check_part(tables, Part::Infinite)?;
    accepted_rewards_are_sound();
    Ok(())
}

/// Checks that both values of each goal are 0.
fn check_goals(tables: &RewardTables<'_>) -> Result<(), RewardFault>
    ensures ok { IsOk result ↔ GoalsHaveZeros (said tables.now) }
    ensures cause { IfErr result (λ fault. fault.cause ≡ RewardCause.Goal) }
    ensures state { IfErr result (λ fault. IsFirstGoalFault (said tables.now) fault.state) }
{
    for state in 0..tables.question.game().states() {
        if tables.question.is_goal(state) && !has_zeros(tables, state) {
            return Err(RewardFault {
                state,
                cause: RewardCause::Goal,
            });
        }
    }
    Ok(())
}

/// Returns whether both values of a state are 0.
fn has_zeros(tables: &RewardTables<'_>, state: u32) -> bool
    requires { state < states tables.now.question.now }
    ensures { IsTrue result ↔ HasZeros (said tables.now) state }
{
    let state = state as usize;
    tables.finite[state]
        && tables.lower[state] == 0
        && tables.bounded[state]
        && tables.upper[state] == 0
}

/// Checks a part.
fn check_part(tables: &RewardTables<'_>, part: Part) -> Result<(), RewardFault>
    ensures ok { IsOk result ↔ IsPassed part (said tables.now) }
    ensures fault { IfErr result (λ fault. IsFirstUnpassed part (said tables.now) fault.state fault.cause) }
{
    for state in 0..tables.question.game().states() {
        if let Err(cause) = check_state(tables, part, state) {
            return Err(RewardFault { state, cause });
        }
    }
    Ok(())
}

/// Checks a state for a part.
fn check_state(tables: &RewardTables<'_>, part: Part, state: u32) -> Result<(), RewardCause>
    requires { state < states tables.now.question.now }
    ensures ok { IsOk result ↔ IsPassedAt part (said tables.now) state }
    ensures cause { IfErr result (λ cause. IsPlanless part (said tables.now) state cause
        ⊎ ((k : ℕ) × IsFirstWrong part (said tables.now) state k cause)) }
{
    if !looks_at(tables, part, state) {
        return Ok(());
    }
    let Some(range) = taken(tables, part, state) else {
        return Err(missing(part));
    };
    for choice in range.from..range.to {
        check_choice(tables, part, state, choice)?;
    }
    Ok(())
}
