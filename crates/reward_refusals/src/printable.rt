//! This module shows that the numbers of every refusal can be printed, because their types bound them.

ghost use Rattle.output.specs.Printable.{IsPrintable};
ghost use Rattle.reward_refusals.specs.Printable.{RewardsPrintable, RewardPrintable};

use crate::refusal::RewardRefusal;
use reward_check::RewardFault;
use rewards_reader::RewardsCause;

fn number_is_printable(number: u32)
    ensures { IsPrintable number }
{}

fn rewards_cause_is_printable(cause: RewardsCause)
    ensures { RewardsPrintable cause }
{}

fn reward_fault_is_printable(fault: RewardFault)
    ensures { RewardPrintable fault }
{}

impl RewardRefusal {
    ghost use Rattle.reward_refusals.specs.Printable.{RewardRefusalPrintable};

    /// Tells a proof that the numbers of a refusal are written in full. It does nothing.
    pub fn invariant(&self)
        ensures { RewardRefusalPrintable self.now }
    {
        match self {
            RewardRefusal::Shared(refusal) => refusal.invariant(),
            RewardRefusal::OfRewards(fault) => {
                number_is_printable(fault.line);
                rewards_cause_is_printable(fault.cause);
            }
            RewardRefusal::RewardsTooLong => {}
            RewardRefusal::OfCertificateText(fault) => number_is_printable(fault.line),
            RewardRefusal::OfCertificate(fault) => reward_fault_is_printable(*fault),
        }
    }
}
