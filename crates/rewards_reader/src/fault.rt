//! This module says why a file of rewards is refused.

use fractions::NumberFault;

/// A cause says why a file of rewards is refused.
#[derive(Clone, Copy, Debug, PartialEq, Eq)]
pub enum RewardsCause {
    /// The first line is not the word `rewards` and two whole numbers.
    NoHeader,
    /// The first line states another number of states than the game has.
    StateCount,
    /// The first line states too many lines.
    OverLimit,
    /// The lines behind the first are not as many as it states.
    LineCount {
        /// So many lines were read.
        read: u32,
        /// The first line states so many.
        stated: u32,
    },
    /// A line has neither two nor three fields.
    FieldCount,
    /// A state or a choice is no whole number.
    BadField,
    /// A state is not below the number of states.
    StateOutOfRange,
    /// A choice is not below the number of choices of its state.
    ChoiceOutOfRange,
    /// The reward of a line is refused, as a probability would be. The cause is never `NumberFault::TooLarge`.
    Number(NumberFault),
    /// The reward of a line is above 10^15.
    TooLarge,
    /// A line before gives a reward to the same state, or to the same choice.
    DoubleLine,
}

/// A fault of a file of rewards has a line and a cause. Lines count from 1. Line 0 says that the fault belongs to no
/// single line.
#[derive(Clone, Copy, Debug, PartialEq, Eq)]
pub struct RewardsFault {
    /// This is the number of the line.
    pub line: u32,
    /// This is what is wrong there.
    pub cause: RewardsCause,
}

/// Reading a file of rewards ends like this if it gives no rewards.
#[derive(Clone, Copy, Debug, PartialEq, Eq)]
pub enum RewardsEnd {
    /// Memory ran out.
    OutOfMemory,
    /// The text has this fault.
    Refused(RewardsFault),
}

impl RewardsEnd {
    ghost use Rattle.std.specs.Prelude.{◌≡◌};
    ghost use Rattle.rewards_reader.specs.declared.fault.RewardsEnd.TheVariants.{Refused};
    ghost use Rattle.rewards_reader.specs.Texts.{fault_at};

    /// Returns the end that the line of this number has a fault.
    pub(crate) fn at(line: u32, cause: RewardsCause) -> RewardsEnd
        ensures { result ≡ Refused (fault_at line cause) }
    {
        RewardsEnd::Refused(RewardsFault { line, cause })
    }
}
