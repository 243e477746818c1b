//! This module says why a text denotes no game.

use crate::line::Transition;
use distributions::ChoiceFault;
use fractions::NumberFault;
use std::alloc::{AllocError, AllocFailed};

/// A cause says what is wrong.
#[derive(Clone, Copy, Debug, PartialEq, Eq)]
pub enum TraCause {
    /// Memory ran out.
    OutOfMemory,
    /// The first line is not two or three whole numbers.
    NoHeader,
    /// A field that must be a whole number is not one.
    BadField,
    /// A line has another number of fields than its kind allows.
    FieldCount,
    /// A number of the header is above its limit, or the number of a choice is not below its limit.
    OverLimit,
    /// The header states no state.
    NoStates,
    /// A state is not below the number of states.
    StateOutOfRange,
    /// The probability of a line is refused.
    Number(NumberFault),
    /// The action of a line differs from that of the first line of its choice.
    ActionClash {
        state: u32,
        choice: u32,
    },
    /// The transition lines are not as many as stated.
    LineCount {
        read: u32,
        stated: u32,
    },
    /// This is the least choice of a state that is missing before a choice that is there.
    ChoiceGap {
        state: u32,
        choice: u32,
    },
    /// This is the least state with more choices than a state may have.
    TooManyChoices {
        state: u32,
    },
    /// The choices of all states are not as many as stated.
    ChoiceCount {
        read: u32,
        stated: u32,
    },
    /// A choice is no distribution.
    Choice {
        state: u32,
        choice: u32,
        fault: ChoiceFault,
    },
}

/// A fault is a cause and its line, counted from 1. Line 0 is the whole text.
#[derive(Clone, Copy, Debug, PartialEq, Eq)]
pub struct TraFault {
    pub line: u32,
    pub cause: TraCause,
}

impl TraFault {
    ghost use Rattle.std.specs.Prelude.{◌≡◌};
    ghost use Rattle.transition_lines.specs.Faults.{fault_at, fault_of_all, fault_of_choice};

    /// Returns a fault of the whole text.
    pub fn of_all(cause: TraCause) -> TraFault
        ensures { result ≡ fault_of_all cause }
    {
        TraFault { line: 0, cause }
    }

    /// Returns the fault of a choice, which belongs to the whole text.
    pub fn of_choice(state: u32, choice: u32, fault: ChoiceFault) -> TraFault
        ensures { result ≡ fault_of_choice state choice fault }
    {
        match fault {
            ChoiceFault::OutOfMemory => TraFault::of_all(TraCause::OutOfMemory),
            _ => TraFault::of_all(TraCause::Choice {
                state,
                choice,
                fault,
            }),
        }
    }

    /// Returns the fault of a line whose action differs from that of the first line of its choice.
    pub fn of_clash(line: u32, transition: &Transition) -> TraFault
        ensures { result ≡ fault_at line (TraCause.ActionClash transition.now.source transition.now.choice) }
    {
        TraFault {
            line,
            cause: TraCause::ActionClash {
                state: transition.source,
                choice: transition.choice,
            },
        }
    }
}

impl From<AllocError> for TraFault {
    ghost use Rattle.std.specs.Prelude.{◌≡◌};
    ghost use Rattle.transition_lines.specs.Faults.{fault_of_all};
    ghost use Rattle.transition_lines.specs.declared.fault.TraCause.TheVariants.{OutOfMemory};

    ghost from_gives = { λ _ given. given ≡ fault_of_all OutOfMemory };

    fn from(_: AllocError) -> TraFault {
        TraFault::of_all(TraCause::OutOfMemory)
    }
}

impl<T: Drop> From<AllocFailed<T>> for TraFault {
    ghost use Rattle.std.specs.Prelude.{◌≡◌};
    ghost use Rattle.transition_lines.specs.Faults.{fault_of_all};
    ghost use Rattle.transition_lines.specs.declared.fault.TraCause.TheVariants.{OutOfMemory};

    ghost from_gives = { λ _ given. given ≡ fault_of_all OutOfMemory };

    fn from(_: AllocFailed<T>) -> TraFault {
        TraFault::of_all(TraCause::OutOfMemory)
    }
}
