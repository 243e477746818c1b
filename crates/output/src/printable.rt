//! This module shows that the numbers of every refusal can be printed, because their types bound them.

ghost use Rattle.output.specs.Printable.{IsPrintable, ChoicePrintable, TraPrintable, LabPrintable, CertificatePrintable};

use crate::refusal::Refusal;
use certificate_audit::AuditFault;
use distributions::ChoiceFault;
use label_lines::LabCause;
use transition_lines::TraCause;

fn number_is_printable(number: u32)
    ensures { IsPrintable number }
{}

fn choice_fault_is_printable(fault: ChoiceFault)
    ensures { ChoicePrintable fault }
{}

fn tra_cause_is_printable(cause: TraCause)
    ensures { TraPrintable cause }
{}

fn lab_cause_is_printable(cause: LabCause)
    ensures { LabPrintable cause }
{}

fn audit_fault_is_printable(fault: AuditFault)
    ensures { CertificatePrintable fault }
{}

impl Refusal {
    ghost use Rattle.output.specs.Printable.{RefusalPrintable};

    /// Tells a proof that the numbers of a refusal are written in full. It does nothing.
    pub fn invariant(&self)
        ensures { RefusalPrintable self.now }
    {
        match self {
            Refusal::OfTra(fault) => {
                number_is_printable(fault.line);
                tra_cause_is_printable(fault.cause);
            }
            Refusal::OfLab(fault) | Refusal::OfOwn(fault) => {
                number_is_printable(fault.line);
                lab_cause_is_printable(fault.cause);
            }
            Refusal::OfFormula(fault) => number_is_printable(fault.place),
            Refusal::OfCertificate(fault) => audit_fault_is_printable(*fault),
            Refusal::OfValues(fault) => number_is_printable(fault.line),
            Refusal::OfQuestion(_) | Refusal::WrongKind | Refusal::TooLong(_) => {}
        }
    }
}
