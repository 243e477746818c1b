//! This module has the reasons for which the text of a certificate is refused.

/// The text of a certificate is refused for one of these causes.
#[derive(Clone, Copy, Debug, PartialEq, Eq)]
pub enum PlanCause {
    /// Memory ran out.
    OutOfMemory,
    /// No line has the first field `certificate`, or `rewards` where a certificate of rewards is read.
    NoCertificate,
    /// The version of the certificate is neither `1` nor `2`.
    Version,
    /// The certificate has another number of states than was asked for.
    StateCount,
    /// A line does not have the form of its place.
    BadLine,
    /// A value is above the unit, or a choice or a rank is too great.
    NumberOutOfRange,
    /// The text ends before the last state's line.
    MissingLine,
    /// The values of a certificate of rewards have more than 15 places.
    Places,
}

/// A certificate's text has a fault at a line. Lines count from 1. Line 0 means the whole text, or that memory ran out.
#[derive(Clone, Copy, Debug, PartialEq, Eq)]
pub struct PlanFault {
    /// This is the number of the line.
    pub line: u32,
    /// This is what is wrong there.
    pub cause: PlanCause,
}

impl PlanFault {
    ghost use Rattle.std.specs.Prelude.{◌≡◌};
    ghost use Rattle.plan_text.specs.Said.{fault_at};

    /// Makes the fault that memory ran out.
    pub fn out_of_memory() -> PlanFault
        ensures { result ≡ fault_at 0 PlanCause.OutOfMemory }
    {
        PlanFault {
            line: 0,
            cause: PlanCause::OutOfMemory,
        }
    }
}
