//! This module says why a run is refused, and makes the line that says so.

ghost use Rattle.std.specs.Prelude.{◌≡◌, ◌++◌, IfOk, codes};
ghost use Rattle.std.specs.String.{string_bytes};
ghost use Rattle.output.specs.Refusals.{refusal_text, refused_line, formula_refused, question_refused, certificate_refused, usage_text};

use crate::causes::{
    formula_cause, lab_cause, plan_cause, ranks_cause, tra_cause, upper_cause, values_cause,
};
use certificate_audit::AuditFault;
use formula_sets::PoseFault;
use formula_tokens::FormulaFault;
use label_lines::LabFault;
use std::alloc::{AllocError, Global};
use transition_lines::TraFault;
use values_reader::ValuesFault;

/// This is one of the texts of a run.
#[derive(Clone, Copy, Debug, PartialEq, Eq)]
pub enum Text {
    Tra,
    Lab,
    Own,
    Cert,
    Values,
}

impl Text {
    ghost use Rattle.output.specs.Refusals.{name_of_text};

    /// Returns the name of the text in a refusal line.
    pub fn name(self) -> &'static str
        ensures { result.now ≡ name_of_text self }
    {
        match self {
            Text::Tra => "tra",
            Text::Lab => "lab",
            Text::Own => "own",
            Text::Cert => "cert",
            Text::Values => "values",
        }
    }
}

/// This is the first fault of what a run was given.
#[derive(Drop)]
pub enum Refusal {
    /// The transition file has a fault.
    OfTra(TraFault),
    /// The label file has a fault.
    OfLab(LabFault),
    /// The owner file has a fault.
    OfOwn(LabFault),
    /// The formula has a fault.
    OfFormula(FormulaFault),
    /// The formula poses no question.
    OfQuestion(PoseFault),
    /// The command does not take such a formula.
    WrongKind,
    /// The certificate has a fault.
    OfCertificate(AuditFault),
    /// The file of values has a fault.
    OfValues(ValuesFault),
    /// A file has more bytes than are read.
    TooLong(Text),
}

/// Returns the line that says why a run is refused.
pub fn refusal_line(alloc: Global, refusal: &Refusal) -> Result<Vec<u8>, AllocError>
    ensures { IfOk result (λ line. line.items ≡ refusal_text refusal.now) }
{
    match refusal {
        Refusal::OfTra(fault) => {
            let cause = tra_cause(alloc, fault.cause)?;
            refused(alloc, Text::Tra, fault.line, cause.as_str())
        }
        Refusal::OfLab(fault) => {
            let cause = lab_cause(alloc, fault.cause)?;
            refused(alloc, Text::Lab, fault.line, cause.as_str())
        }
        Refusal::OfOwn(fault) => {
            let cause = lab_cause(alloc, fault.cause)?;
            refused(alloc, Text::Own, fault.line, cause.as_str())
        }
        Refusal::OfFormula(fault) => formula_line(alloc, fault),
        Refusal::OfQuestion(fault) => question_line(alloc, fault),
        Refusal::WrongKind => question_cause(alloc, b"WrongKind", b""),
        Refusal::OfCertificate(fault) => certificate_line(alloc, *fault),
        Refusal::OfValues(fault) => {
            refused(alloc, Text::Values, fault.line, values_cause(fault.cause))
        }
        Refusal::TooLong(text) => refused(alloc, *text, 0, "TooLong"),
    }
}

// Returns the line of a fault of the formula.
fn formula_line(alloc: Global, fault: &FormulaFault) -> Result<Vec<u8>, AllocError>
    ensures { IfOk result (λ line. line.items ≡ formula_refused fault.now) }
{
    let place = fault.place;
    let cause = formula_cause(alloc, fault.cause)?;
    let line = format!(in alloc; "refused formula place {place} {cause}\n")?;
    Ok(line.into_bytes())
}

// Returns the line of a fault of the question. A name is printed as its bytes.
fn question_line(alloc: Global, fault: &PoseFault) -> Result<Vec<u8>, AllocError>
    ensures { IfOk result (λ line. line.items ≡ question_refused fault.now) }
{
    match fault {
        PoseFault::OutOfMemory => question_cause(alloc, b"OutOfMemory", b""),
        PoseFault::UnknownLabel(name) => question_cause(alloc, b"UnknownLabel ", name.as_bytes()),
        PoseFault::UnknownPlayer(name) => question_cause(alloc, b"UnknownPlayer ", name.as_bytes()),
        PoseFault::NoInit => question_cause(alloc, b"NoInit", b""),
    }
}

fn question_cause(alloc: Global, cause: &[u8], name: &[u8]) -> Result<Vec<u8>, AllocError>
    ensures { IfOk result (λ line. line.items ≡ codes "refused question line 0 "
        ++ ((cause.now ++ name.now) ++ codes "\n")) }
{
    let mut line = Vec::from_slice(alloc, b"refused question line 0 ")?;
    line.extend_from_slice(cause)?;
    line.extend_from_slice(name)?;
    line.extend_from_slice(b"\n")?;
    Ok(line)
}

// Returns the line of a fault of the certificate: of its text, with the line, or of what it says, with the state.
fn certificate_line(alloc: Global, fault: AuditFault) -> Result<Vec<u8>, AllocError>
    ensures { IfOk result (λ line. line.items ≡ certificate_refused fault) }
{
    match fault {
        AuditFault::Text(fault) => refused(alloc, Text::Cert, fault.line, plan_cause(fault.cause)),
        AuditFault::Upper(fault) => {
            let cause = upper_cause(alloc, fault.state, fault.cause)?;
            refused(alloc, Text::Cert, 0, cause.as_str())
        }
        AuditFault::Ranks(fault) => {
            let cause = ranks_cause(alloc, fault.state, fault.cause)?;
            refused(alloc, Text::Cert, 0, cause.as_str())
        }
    }
}

// Returns the line of a fault of a file.
fn refused(alloc: Global, text: Text, line: u32, cause: &str) -> Result<Vec<u8>, AllocError>
    ensures { IfOk result (λ said. said.items ≡ refused_line text line cause.now) }
{
    let name = text.name();
    let said = format!(in alloc; "refused {name} line {line} {cause}\n")?;
    Ok(said.into_bytes())
}

/// Returns the line that says what words are taken.
pub fn usage_line(alloc: Global) -> Result<String, AllocError>
    ensures { IfOk result (λ line. string_bytes line ≡ usage_text) }
{
    String::from_str(
        alloc,
        "usage: stogame check TRA LAB FORMULA [--own FILE] [--rounds R] [--workers W] [--plan] [--traps] | audit TRA LAB FORMULA CERT [--own FILE] | make SEED STATES [--rounds R] [--workers W] | sure TRA LAB FORMULA [--own FILE]\n",
    )
}
