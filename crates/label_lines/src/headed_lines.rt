//! This module reads texts whose first line is a header.

ghost use Rattle.std.specs.Prelude.{◌≡◌, ◌<◌, ◌+◌, ◌∷◌, [], ℕ, List, Result, Err, MatchOption, MatchResult, IfOk, length};
ghost use Rattle.label_lines.specs.declared.kind.FileKind.{FileKind};
ghost use Rattle.label_lines.specs.declared.faults.LabFault.{LabFault};
ghost use Rattle.label_lines.specs.Header.{Item};
ghost use Rattle.label_lines.specs.Lines.{StateLine};
ghost use Rattle.game_outside.specs.Answers.{AnswersOrWants};
ghost use Rattle.label_lines.specs.Texts.{lines_from, made_of, said_by_lines, IsOutOfMemory};

use crate::faults::{LabCause, LabFault};
use crate::header::{Header, read_header};
use crate::kind::FileKind;
use std::alloc::{AllocError, Global};
use text_lines::LineReader;

/// A type of this trait reads the lines behind a header.
pub trait BehindHeader: LineReader<Fault = LabFault> {
    /// This is the kind of its files.
    ghost kind: { FileKind };

    /// This is what a header's items and the lines behind it make, for a number of states.
    ghost make: { ℕ → List Item → List StateLine → Self.Made };

    /// Returns the kind of its files.
    fn kind() -> FileKind
        ensures { result ≡ kind };

    /// Makes a reader that has taken only the header.
    fn new(alloc: Global, header: Header, states: u32) -> Result<Self, AllocError>
        requires { 0 < length header }
        ensures { IfOk result (λ reader. (lines : List (List ℕ)) (answer : Result Self.Made LabFault) →
            Self.answers reader 2 lines answer
            → AnswersOrWants IsOutOfMemory (λ x. x) answer
            (made_of (make states header) (lines_from kind states header [] 2 lines))) };
}

/// Reads a whole text: its header, and then the lines behind it.
#[derive(Drop)]
pub struct HeadedLines<B: BehindHeader> {
    alloc: Global,
    states: u32,
    behind: Option<B>,
}

impl<B: BehindHeader> HeadedLines<B> {
    /// Makes a reader that has taken nothing yet.
    pub fn new(alloc: Global, states: u32) -> HeadedLines<B>
        ensures states { result.states ≡ states }
        ensures behind { result.behind ≡ None }
    {
        HeadedLines {
            alloc,
            states,
            behind: None,
        }
    }
}

// Takes the header.
fn begin<B: BehindHeader>(alloc: Global, states: u32, line: &[u8]) -> Result<B, LabFault>
    ensures ok { IfOk result (λ reader. (lines : List (List ℕ)) (answer : Result B.Made LabFault) →
        B.answers reader 2 lines answer → AnswersOrWants IsOutOfMemory (λ x. x) answer
        (said_by_lines B.kind states (B.make states) (line.now ∷ lines))) }
    ensures fault { MatchResult result (λ _. Unit {0}) (λ fault. (lines : List (List ℕ)) →
        AnswersOrWants {X = B.Made} IsOutOfMemory (λ x. x) (Err fault)
        (said_by_lines B.kind states (B.make states) (line.now ∷ lines))) }
{
    match read_header(alloc, B::kind(), line) {
        Err(cause) => Err(LabFault::of_header(cause)),
        Ok(header) => match B::new(alloc, header, states) {
            Ok(reader) => Ok(reader),
            Err(_) => Err(LabFault::out_of_memory()),
        },
    }
}

impl<B: BehindHeader> LineReader for HeadedLines<B> {
    type Made = B::Made;

    type Fault = LabFault;

    ghost answers = { λ r number lines answer. MatchOption r.behind
        (number ≡ 1 → AnswersOrWants IsOutOfMemory (λ x. x) answer
        (said_by_lines B.kind r.states (B.make r.states) lines))
        (λ reader. B.answers reader number lines answer) };

    fn take(&mut self, number: u32, line: &[u8]) -> Result<(), LabFault> {
        match &mut self.behind {
            Some(reader) => reader.take(number, line),
            None => {
                self.behind = Some(begin(self.alloc, self.states, line)?);
                Ok(())
            }
        }
    }

    fn blank(&self, number: u32) -> LabFault {
        match &self.behind {
            Some(reader) => reader.blank(number),
            None => LabFault::at(1, LabCause::NoHeader),
        }
    }

    fn finish(self) -> Result<B::Made, LabFault> {
        match self.behind {
            Some(reader) => reader.finish(),
            None => Err(LabFault::at(1, LabCause::NoHeader)),
        }
    }
}
