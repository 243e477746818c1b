//! This module notes the first actions of choices.

ghost use Rattle.std.specs.Prelude.{◌≡◌, ◌≤◌, ℕ, length, nat_eq};
ghost use Rattle.std.specs.HashMap.{get};
ghost use Rattle.std.specs.Option.{ForSome};

use std::alloc::{AllocError, Global};
use std::collections::HashMap;
use transition_lines::Transition;

/// A span says where an action is among the bytes of all actions.
#[derive(Clone, Copy, Debug, PartialEq, Eq)]
struct Span {
    start: usize,
    end: usize,
}

/// Holds the action of the first line of each choice, by the choice's place in the order of all choices.
#[derive(Drop)]
pub struct FirstActions {
    bytes: Vec<u8>,
    spans: HashMap<u64, Span>,
    ghost inside: { (place : ℕ) → ForSome (get nat_eq spans place)
        (λ span. (span.start ≤ span.end) × (span.end ≤ length bytes.items)) },
}

impl FirstActions {
    ghost use Rattle.std.specs.Prelude.{◌==◌, ◌++◌, ◌∷◌, [], IfOk, OnOk, List, Some, if◌then◌else◌};
    ghost use Rattle.transition_lines.specs.Lines.{Row};
    ghost use Rattle.transition_lines.specs.Answers.{clashes_at, row_place};
    ghost use Rattle.tra_reader.specs.inside.Noted.{noted, silent_rows, Notes};

    /// Starts with no action.
    pub fn new(alloc: Global) -> FirstActions
        ensures { Notes result [] }
    {
        FirstActions {
            bytes: Vec::new(alloc),
            spans: HashMap::new(alloc),
        }
    }

    /// Notes the action of a line, and says whether it clashes with that of the first line of its choice.
    pub fn note(&mut self, place: u64, action: &[u8]) -> Result<bool, AllocError>
        ensures { IfOk result (λ clash. (rows : List Row) (row : Row) → row_place row ≡ place → row.action ≡ action.now
            → Notes self.old rows → (clash ≡ clashes_at rows row) × Notes self.new (rows ++ row ∷ [])) }
    {
        match self.spans.get(&place).copied() {
            Some(span) => Ok(&self.bytes[span.start..span.end] != action),
            None => {
                self.put(place, action)?;
                Ok(false)
            }
        }
    }

    /// Notes that these lines have no action, if nothing is noted yet.
    pub fn note_silent(&mut self, lines: &[Transition]) -> Result<(), AllocError>
        ensures { OnOk result (Notes self.old [] → Notes self.new (silent_rows lines.now)) }
    {
        for line in lines {
            self.note(line.place(), &[])?;
        }
        Ok(())
    }

    // Keeps the action of a choice for which none is noted.
    fn put(&mut self, place: u64, action: &[u8]) -> Result<(), AllocError>
        ensures { OnOk result ((q : ℕ) → noted self.new q ≡ (if place
            == q then Some action.now else noted self.old q)) }
    {
        let start = self.bytes.len();
        self.bytes.extend_from_slice(action)?;
        let end = self.bytes.len();
        self.spans.insert(place, Span { start, end })?;
        Ok(())
    }
}
