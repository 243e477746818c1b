//! This module says why a file of values is refused.

/// A cause says why a file of values is refused.
#[derive(Clone, Copy, Debug, PartialEq, Eq)]
pub enum ValuesCause {
    /// A line is neither one number nor a state and a number, or does not have the form of the first line.
    BadField,
    /// A state is not below the number of states.
    StateOutOfRange,
    /// A state occurs twice.
    DoubleState,
    /// Each line is one number, and there are not as many lines as states.
    LineCount,
}

/// A fault of a file of values has a line and a cause. Lines count from 1, and blank ones count. Line 0 says that the
/// fault belongs to no single line.
#[derive(Clone, Copy, Debug, PartialEq, Eq)]
pub struct ValuesFault {
    /// This is the number of the line.
    pub line: u32,
    /// This is what is wrong there.
    pub cause: ValuesCause,
}

/// Reading a file of values ends like this if it gives no values.
#[derive(Clone, Copy, Debug, PartialEq, Eq)]
pub enum ValuesEnd {
    /// Memory ran out.
    OutOfMemory,
    /// The text has this fault.
    Refused(ValuesFault),
}

impl ValuesEnd {
    ghost use Rattle.std.specs.Prelude.{◌≡◌};
    ghost use Rattle.values_reader.specs.declared.fault.ValuesEnd.TheVariants.{Refused};
    ghost use Rattle.values_reader.specs.Faults.{fault_at};

    /// Returns the end that the line of this number has a fault.
    pub(crate) fn at(line: u32, cause: ValuesCause) -> ValuesEnd
        ensures { result ≡ Refused (fault_at line cause) }
    {
        ValuesEnd::Refused(ValuesFault { line, cause })
    }
}
