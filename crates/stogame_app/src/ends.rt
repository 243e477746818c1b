//! This module ends a run and writes what it ends with.

ghost use Rattle.std.specs.Prelude.{◌≡◌, ◌≢◌, ◌⊎◌, ℕ, List, Option, Err, IfOk};
ghost use Rattle.game_outside.specs.Outside.{Holding, Rose, GrowsBy, GrowsByPrefix};
ghost use Rattle.command_words.specs.Words.{AreNoCommand};
ghost use Rattle.stogame_app.specs.Status.{refused_status};
ghost use Rattle.output.specs.Status.{IsAnswer};
ghost use Rattle.stogame_app.specs.Run.{AnswersWords, IsEnding, RefusesWords};

use game_outside::{Sink, write_all};
use inputs::End;
use output::{Answer, Refusal, Status, Text, refusal_line, usage_line};
use std::alloc::Global;

/// Writes a text, and returns the status if that succeeds.
pub fn say<K: Sink>(out: &mut K, text: &[u8], status: Status) -> Status
    requires { status ≢ Status.WriteFault }
    ensures either { (result ≡ status) ⊎ (result ≡ Status.WriteFault) }
    ensures all { result ≡ status → GrowsBy (K.written out.old) (K.written out.new) text.now }
    ensures fault { result ≡ Status.WriteFault
        → Rose (K.faults out.old) (K.faults out.new) × GrowsByPrefix (K.written out.old) (K.written out.new) text.now }
{
    match write_all(out, text) {
        Ok(()) => status,
        Err(_) => Status::WriteFault,
    }
}

/// Ends a run whose words denote no command.
pub fn end_with_usage<K: Sink>(alloc: Global, out: &mut K) -> Status
    ensures ends { (words : List (List ℕ)) (holding : Option Holding) (taken : ℕ) → AreNoCommand words
        → IsEnding words holding taken (K.written out.old) (K.written out.new) result }
    ensures read_fault { result ≢ Status.ReadFault }
    ensures write_fault { result ≡ Status.WriteFault → Rose (K.faults out.old) (K.faults out.new) }
{
    match usage_line(alloc) {
        Ok(line) => say(out, line.as_bytes(), Status::Usage),
        Err(_) => Status::OutOfMemory,
    }
}

/// Writes the answer to a command, or the line of its refusal. If a text can't be read or memory runs out, only the
/// status tells it.
pub fn end_run<K: Sink>(alloc: Global, out: &mut K, made: Result<Answer, End>) -> Status
    requires { IfOk made (λ answer. IsAnswer answer.status) }
    ensures ends { (words : List (List ℕ)) (holding : Option Holding) (taken : ℕ)
        → AnswersWords words holding taken made
        → IsEnding words holding taken (K.written out.old) (K.written out.new) result }
    ensures read_fault { result ≡ Status.ReadFault → made ≡ Err End.ReadFault }
    ensures write_fault { result ≡ Status.WriteFault → Rose (K.faults out.old) (K.faults out.new) }
{
    match made {
        Ok(answer) => say(out, &answer.text, answer.status),
        Err(End::OutOfMemory) => Status::OutOfMemory,
        Err(End::ReadFault) => Status::ReadFault,
        Err(End::Refused(refusal)) => end_with_refusal(alloc, out, &refusal),
    }
}

// Ends a run with the line of a refusal.
fn end_with_refusal<K: Sink>(alloc: Global, out: &mut K, refusal: &Refusal) -> Status
    ensures ends { (words : List (List ℕ)) (holding : Option Holding) (taken : ℕ)
        → RefusesWords words holding taken refusal.now
        → IsEnding words holding taken (K.written out.old) (K.written out.new) result }
    ensures read_fault { result ≢ Status.ReadFault }
    ensures write_fault { result ≡ Status.WriteFault → Rose (K.faults out.old) (K.faults out.new) }
{
    refusal.invariant();
    match refusal_line(alloc, refusal) {
        Ok(line) => say(out, &line, refused_status(refusal)),
        Err(_) => Status::OutOfMemory,
    }
}

// Returns the status of a refusal. A refused certificate has a status of its own.
fn refused_status(refusal: &Refusal) -> Status
    ensures { result ≡ refused_status refusal.now }
{
    match refusal {
        Refusal::OfCertificate(_) | Refusal::TooLong(Text::Cert) => Status::CertificateRefused,
        Refusal::OfTra(_)
        | Refusal::OfLab(_)
        | Refusal::OfOwn(_)
        | Refusal::OfFormula(_)
        | Refusal::OfQuestion(_)
        | Refusal::WrongKind
        | Refusal::OfValues(_)
        | Refusal::TooLong(Text::Tra | Text::Lab | Text::Own | Text::Values) => {
            Status::ModelRefused
        }
    }
}
