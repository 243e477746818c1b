//! This module says why a reader of lines in order ends.

use std::alloc::AllocError;
use transition_lines::{TraCause, TraFault};

/// A stop is the reason why a reader of lines in order ends.
#[derive(Clone, Copy, Debug, PartialEq, Eq)]
pub enum Stop {
    /// A line comes before the choice under way.
    OutOfOrder,
    /// The text is refused.
    Refused(TraFault),
}

impl From<TraFault> for Stop {
    ghost use Rattle.std.specs.Prelude.{◌≡◌};
    ghost use Rattle.tra_reader.specs.declared.stop.Stop.TheVariants.{Refused};

    ghost from_gives = { λ fault given. given ≡ Refused fault };

    fn from(fault: TraFault) -> Stop {
        Stop::Refused(fault)
    }
}

impl From<AllocError> for Stop {
    ghost use Rattle.std.specs.Prelude.{◌≡◌};
    ghost use Rattle.transition_lines.specs.Faults.{fault_of_all};
    ghost use Rattle.transition_lines.specs.declared.fault.TraCause.TheVariants.{OutOfMemory};
    ghost use Rattle.tra_reader.specs.declared.stop.Stop.TheVariants.{Refused};

    ghost from_gives = { λ _ given. given ≡ Refused (fault_of_all OutOfMemory) };

    fn from(_: AllocError) -> Stop {
        Stop::Refused(TraFault::of_all(TraCause::OutOfMemory))
    }
}
