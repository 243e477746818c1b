//! This module says how a run ends.

ghost use Rattle.std.specs.Prelude.{◌≡◌};

/// This says how a run ends. The exit status of the program is its number.
#[derive(Clone, Copy, Debug, PartialEq, Eq)]
pub enum Status {
    /// Every initial state has its line, and none is False or Undecided; or the run of a made game is settled; or every
    /// initial state is sure.
    Fine,
    /// Some initial state's line is False, or some initial state is not sure.
    SomeFalse,
    /// No line is False, and some line is Undecided; or the run of a made game is not settled.
    SomeUndecided,
    /// The words denote no command.
    Usage,
    /// A text, the formula or the question is refused.
    ModelRefused,
    /// A file can't be read.
    ReadFault,
    /// The output can't be written.
    WriteFault,
    /// Memory ran out. Nothing was written.
    OutOfMemory,
    /// The certificate is refused.
    CertificateRefused,
}

impl Status {
    ghost use Rattle.output.specs.Status.{status_number};

    /// Returns the exit status.
    pub fn number(self) -> u8
        ensures { result ≡ status_number self }
    {
        match self {
            Status::Fine => 0,
            Status::SomeFalse => 1,
            Status::SomeUndecided => 2,
            Status::Usage => 3,
            Status::ModelRefused => 4,
            Status::ReadFault => 5,
            Status::WriteFault => 6,
            Status::OutOfMemory => 7,
            Status::CertificateRefused => 8,
        }
    }
}
