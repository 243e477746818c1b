//! This module has the faults for which a certificate of rewards is refused.

use game_outside::OutOfMemory;
use plan_text::{PlanCause, PlanFault};
use reward_check::RewardFault;

/// A certificate of rewards is refused for a fault of its text or of what it says.
#[derive(Clone, Copy, Debug, PartialEq, Eq)]
pub enum RewardAuditFault {
    /// The text has no certificate, or memory ran out.
    Text(PlanFault),
    /// What the certificate says is refused at a state.
    Plan(RewardFault),
}

impl From<PlanFault> for RewardAuditFault {
    ghost use Rattle.std.specs.Prelude.{◌≡◌};
    ghost use Rattle.reward_audit.specs.declared.fault.RewardAuditFault.TheVariants.{Text};

    ghost from_gives = { λ fault made. made ≡ Text fault };

    fn from(fault: PlanFault) -> RewardAuditFault {
        RewardAuditFault::Text(fault)
    }
}

impl From<RewardFault> for RewardAuditFault {
    ghost use Rattle.std.specs.Prelude.{◌≡◌};
    ghost use Rattle.reward_audit.specs.declared.fault.RewardAuditFault.TheVariants.{Plan};

    ghost from_gives = { λ fault made. made ≡ Plan fault };

    fn from(fault: RewardFault) -> RewardAuditFault {
        RewardAuditFault::Plan(fault)
    }
}

impl From<OutOfMemory> for RewardAuditFault {
    ghost use Rattle.std.specs.Prelude.{◌≡◌};
    ghost use Rattle.plan_text.specs.Said.{fault_at};
    ghost use Rattle.plan_text.specs.declared.fault.PlanCause.TheVariants as cause;
    ghost use Rattle.reward_audit.specs.declared.fault.RewardAuditFault.TheVariants.{Text};

    ghost from_gives = { λ _ made. made ≡ Text (fault_at 0 cause.OutOfMemory) };

    fn from(_: OutOfMemory) -> RewardAuditFault {
        RewardAuditFault::Text(PlanFault {
            line: 0,
            cause: PlanCause::OutOfMemory,
        })
    }
}
