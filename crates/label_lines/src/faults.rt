//! This module says why a text is refused.

/// A cause says why a label file or an owner file is refused.
#[derive(Clone, Copy, Debug, PartialEq, Eq)]
pub enum LabCause {
    /// Memory ran out.
    OutOfMemory,
    /// The text is empty, or its first line is blank.
    NoHeader,
    /// An item of the first line is not an index, `=` and a quoted name.
    BadHeader,
    /// A name occurs twice in the header.
    DoubleName,
    /// An index occurs twice in the header.
    DoubleIndex,
    /// A later line is not a state, a colon and whole numbers.
    BadField,
    /// A state is not below the number of states.
    StateOutOfRange,
    /// An index is not in the header.
    UnknownIndex,
    /// The header has more items than allowed, or a greater index.
    OverLimit,
    /// A state gets a second, different player.
    TwoOwners {
        /// This is the state.
        state: u32,
    },
}

/// A fault of a label file or an owner file has a line and a cause. Lines count from 1. Line 0 says that memory ran
/// out.
#[derive(Clone, Copy, Debug, PartialEq, Eq)]
pub struct LabFault {
    /// This is the number of the line.
    pub line: u32,
    /// This is what is wrong there.
    pub cause: LabCause,
}

impl LabFault {
    ghost use Rattle.std.specs.Prelude.{◌≡◌};
    ghost use Rattle.label_lines.specs.Texts.{fault_at, GivesFault};

    /// Returns the fault of a line with this cause.
    pub fn at(line: u32, cause: LabCause) -> LabFault
        ensures { result ≡ fault_at line cause }
    {
        LabFault { line, cause }
    }

    /// Returns the fault that memory ran out.
    pub fn out_of_memory() -> LabFault
        ensures { result ≡ fault_at 0 LabCause.OutOfMemory }
    {
        LabFault::at(0, LabCause::OutOfMemory)
    }

    /// Returns the fault of a header with this cause.
    pub(crate) fn of_header(cause: LabCause) -> LabFault
        ensures { GivesFault cause result }
    {
        match cause {
            LabCause::OutOfMemory => LabFault::out_of_memory(),
            _ => LabFault::at(1, cause),
        }
    }
}
