//! This module says why a call of the system failed, in words that a person reads.

ghost use Rattle.std.specs.Prelude.{◌≡◌};
ghost use Rattle.std.specs.IoError.{error_kind};

use std::fmt::{self, Display, Formatter};
use std::io::{self, ErrorKind};

/// This says why a call failed: it holds the reason that the system gave, or words of this crate's own.
#[derive(Clone, Copy, Debug, Drop)]
pub struct Failure {
    error: io::Error,
}

impl Failure {
    /// Keeps the reason of a failed call.
    pub fn of(error: &io::Error) -> Failure
        ensures { result.error ≡ error.now }
    {
        Failure { error: *error }
    }

    /// Makes a failure of this kind.
    pub fn of_kind(kind: ErrorKind) -> Failure
        ensures { error_kind result.error ≡ kind }
    {
        Failure {
            error: io::Error::from(kind),
        }
    }

    /// Makes the failure for a text that is asked for once more but may be gone, such as that of a pipe.
    pub fn read_twice() -> Failure
        ensures { error_kind result.error ≡ ErrorKind.Other }
    {
        Failure {
            error: io::Error::other("it is no file that can be read twice"),
        }
    }
}

impl Display for Failure {
    fn fmt<W: fmt::Write>(&self, f: &mut Formatter<W>) -> fmt::Result {
        match self.error.kind() {
            ErrorKind::NotFound => f.write_str("no such file or directory"),
            // A reason that has no name of its own is told in the words of the system.
            ErrorKind::Other | ErrorKind::Uncategorized => Display::fmt(&self.error, f),
            kind => Display::fmt(&kind, f),
        }
    }
}
