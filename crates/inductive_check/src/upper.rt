//! This module checks that an upper table is inductive.

ghost use Rattle.std.specs.Prelude.{◌≡◌, ◌<◌, ◌≤◌, ◌↔◌, length, slice_index, All, IsOk, IfErr};
ghost use Rattle.game_model.specs.Limits.{unit, most_states};
ghost use Rattle.game_model.specs.Query.{states};
ghost use Rattle.game_model.specs.Rounded.{up_step, IsInductive};
ghost use Rattle.game_model.specs.Bounds.{IsHigh};
ghost use Rattle.game_model.specs.Tables.{IsFirstOver};
ghost use Rattle.inductive_check.specs.Faults.{IsCauseAt, IsUpperFault};

use crate::held::{first_held, first_unheld};
use game_laws::tables::inductive_is_high;
use game_model::{Question, Side, UNIT};

/// This is why an upper table, or a reply to it, is refused at a state.
#[derive(Clone, Copy, Debug, PartialEq, Eq)]
pub enum UpperCause {
    /// The entry is above the unit.
    OverOne,
    /// The state is a goal, and its entry is not the unit.
    Goal,
    /// The maximiser has a choice whose weighted average is above the entry, and this is the first such choice.
    Above {
        /// This is the choice.
        choice: u32,
    },
    /// Each choice of the minimiser has a weighted average above the entry.
    NoReply,
    /// The reply of the minimiser is missing, out of range, or has a weighted average above the entry.
    Reply,
}

/// This is the first fault of an upper table, or of replies to it.
#[derive(Clone, Copy, Debug, PartialEq, Eq)]
pub struct UpperFault {
    /// This is the state.
    pub state: u32,
    /// This is what is wrong there.
    pub cause: UpperCause,
}

/// Checks that a table of units, by state, is inductive: no entry is above the unit, and no state's up value is above
/// its entry. Then no k-step value is above the table. An entry above the unit, at any state, comes before every other
/// fault. It takes no memory.
pub fn check_upper(question: &Question, upper: &[u64]) -> Result<(), UpperFault>
    requires length { length upper.now ≡ states question.now }
    ensures ok { IsOk result ↔ (All (λ v. v ≤ unit) upper.now × IsInductive question.now (slice_index upper.now)) }
    ensures high { IsOk result → IsHigh question.now (slice_index upper.now) }
    ensures fault { IfErr result (λ fault. IsUpperFault question.now upper.now fault.state fault.cause) }
{
    question.invariant();
    check_units(upper)?;
    for state in 0..question.game().states() {
        if let Err(cause) = check_state(question, upper, state) {
            return Err(UpperFault { state, cause });
        }
    }
    inductive_is_high(question, upper);
    Ok(())
}

/// Checks that each entry is at most the unit.
fn check_units(upper: &[u64]) -> Result<(), UpperFault>
    requires { length upper.now ≤ most_states }
    ensures ok { IsOk result ↔ All (λ v. v ≤ unit) upper.now }
    ensures cause { IfErr result (λ fault. fault.cause ≡ UpperCause.OverOne) }
    ensures state { IfErr result (λ fault. IsFirstOver upper.now fault.state) }
{
    for (state, entry) in upper.iter().enumerate() {
        if *entry > UNIT {
            return Err(UpperFault {
                state: state as u32,
                cause: UpperCause::OverOne,
            });
        }
    }
    Ok(())
}

/// Checks that the up value of a state is at most its entry.
fn check_state(question: &Question, upper: &[u64], state: u32) -> Result<(), UpperCause>
    requires length { length upper.now ≡ states question.now }
    requires units { All (λ v. v ≤ unit) upper.now }
    requires state { state < states question.now }
    ensures ok { IsOk result ↔ (up_step question.now (slice_index upper.now) state ≤ slice_index upper.now state) }
    ensures cause { IfErr result (IsCauseAt question.now (slice_index upper.now) state) }
{
    question.invariant();
    if question.is_goal(state) {
        if upper[state as usize] < UNIT {
            return Err(UpperCause::Goal);
        }
        return Ok(());
    }
    if question.is_dead(state) {
        return Ok(());
    }
    match question.side(state) {
        Side::Max => match first_unheld(question, upper, state) {
            Some(choice) => Err(UpperCause::Above { choice }),
            None => Ok(()),
        },
        Side::Min => match first_held(question, upper, state) {
            Some(_) => Ok(()),
            None => Err(UpperCause::NoReply),
        },
    }
}
