//! This module has the faults for which a certificate is refused.

use inductive_check::UpperFault;
use plan_text::PlanFault;
use rank_certificate::RankFault;

/// A certificate is refused for the first fault of its text, of its upper table or replies, or of its lower table,
/// choices and ranks.
#[derive(Clone, Copy, Debug, PartialEq, Eq)]
pub enum AuditFault {
    /// The text has no certificate of the question's states, or memory ran out.
    Text(PlanFault),
    /// The upper table is not inductive, or a reply is not held to it.
    Upper(UpperFault),
    /// The upper table and the replies pass, but the choices and the ranks do not prove the lower table.
    Ranks(RankFault),
}

impl From<PlanFault> for AuditFault {
    ghost use Rattle.std.specs.Prelude.{◌≡◌};
    ghost use Rattle.certificate_audit.specs.declared.fault.AuditFault.TheVariants.{Text};

    ghost from_gives = { λ fault given. given ≡ Text fault };

    fn from(fault: PlanFault) -> AuditFault {
        AuditFault::Text(fault)
    }
}

impl From<UpperFault> for AuditFault {
    ghost use Rattle.std.specs.Prelude.{◌≡◌};
    ghost use Rattle.certificate_audit.specs.declared.fault.AuditFault.TheVariants.{Upper};

    ghost from_gives = { λ fault given. given ≡ Upper fault };

    fn from(fault: UpperFault) -> AuditFault {
        AuditFault::Upper(fault)
    }
}

impl From<RankFault> for AuditFault {
    ghost use Rattle.std.specs.Prelude.{◌≡◌};
    ghost use Rattle.certificate_audit.specs.declared.fault.AuditFault.TheVariants.{Ranks};

    ghost from_gives = { λ fault given. given ≡ Ranks fault };

    fn from(fault: RankFault) -> AuditFault {
        AuditFault::Ranks(fault)
    }
}
