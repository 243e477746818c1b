//! This module has the printed names of the causes, with what they carry.

ghost use Rattle.std.specs.Prelude.{◌≡◌, IfOk};
ghost use Rattle.std.specs.String.{string_bytes};
ghost use Rattle.reward_refusals.specs.Refusals.{reward_text, rewards_text};

use output::number_cause;
use reward_check::RewardCause;
use rewards_reader::RewardsCause;
use std::alloc::{AllocError, Global};

/// Returns why a file of rewards is refused.
pub fn rewards_cause(alloc: Global, cause: RewardsCause) -> Result<String, AllocError>
    ensures { IfOk result (λ said. string_bytes said ≡ rewards_text cause) }
{
    match cause {
        RewardsCause::NoHeader => String::from_str(alloc, "NoHeader"),
        RewardsCause::StateCount => String::from_str(alloc, "StateCount"),
        RewardsCause::OverLimit => String::from_str(alloc, "OverLimit"),
        RewardsCause::LineCount { read, stated } => {
            format!(in alloc; "LineCount read {read} stated {stated}")
        }
        RewardsCause::FieldCount => String::from_str(alloc, "FieldCount"),
        RewardsCause::BadField => String::from_str(alloc, "BadField"),
        RewardsCause::StateOutOfRange => String::from_str(alloc, "StateOutOfRange"),
        RewardsCause::ChoiceOutOfRange => String::from_str(alloc, "ChoiceOutOfRange"),
        RewardsCause::Number(fault) => {
            let name = number_cause(fault);
            format!(in alloc; "Number {name}")
        }
        RewardsCause::TooLarge => String::from_str(alloc, "TooLarge"),
        RewardsCause::DoubleLine => String::from_str(alloc, "DoubleLine"),
    }
}

/// Returns why a certificate of rewards is refused at a state.
pub fn reward_cause(alloc: Global, state: u32, cause: RewardCause) -> Result<String, AllocError>
    ensures { IfOk result (λ said. string_bytes said ≡ reward_text state cause) }
{
    match cause {
        RewardCause::Goal => format!(in alloc; "Goal state {state}"),
        RewardCause::Reply => format!(in alloc; "Reply state {state}"),
        RewardCause::Leaves { choice } => format!(in alloc; "Leaves state {state} choice {choice}"),
        RewardCause::Above { choice } => format!(in alloc; "Above state {state} choice {choice}"),
        RewardCause::NoStep { choice } => format!(in alloc; "NoStep state {state} choice {choice}"),
        RewardCause::Choice => format!(in alloc; "Choice state {state}"),
        RewardCause::Short { choice } => format!(in alloc; "Short state {state} choice {choice}"),
        RewardCause::Away { choice } => format!(in alloc; "Away state {state} choice {choice}"),
    }
}
