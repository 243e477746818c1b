//! This module reads transition lines that come in any order.

ghost use Rattle.std.specs.Prelude.{◌≡◌, ◌≢◌, ◌≤◌, ◌<◌, [], ℕ, List, IfOk, OnOk, MatchResult, length};
ghost use Rattle.std.specs.List.{All};
ghost use Rattle.text_lines.specs.Text.{fields_of};
ghost use Rattle.transition_lines.specs.Order.{IsWithin};
ghost use Rattle.transition_lines.specs.Answers.{IsAccepted};

use crate::body::{blank_between, check_count, first_line, no_header, read_row};
use crate::build::build;
use crate::line_actions::LineActions;
use game_model::Game;
use std::alloc::Global;
use text_lines::LineReader;
use transition_lines::{Header, TraFault, Transition};

/// Reads a text whose transitions come in any order. It keeps all of them.
#[derive(Drop)]
pub struct UnorderedReader {
    alloc: Global,
    held: Option<UnorderedRows>,
}

impl UnorderedReader {
    ghost use Rattle.std.specs.Prelude.{None};

    /// Makes a reader that has read no line.
    pub fn new(alloc: Global) -> UnorderedReader
        ensures { result.held ≡ None }
    {
        UnorderedReader { alloc, held: None }
    }
}

impl LineReader for UnorderedReader {
    ghost use Rattle.tra_reader.specs.inside.AnyOrder.{IsRightInAnyOrder};

    type Made = Game;

    type Fault = TraFault;

    ghost answers = { λ reader number lines answer. IsRightInAnyOrder reader.held number lines answer };

    fn take(&mut self, number: u32, line: &[u8]) -> Result<(), TraFault> {
        match &mut self.held {
            None => {
                self.held = Some(UnorderedRows::begin(self.alloc, line)?);
                Ok(())
            }
            Some(held) => held.take(number, line),
        }
    }

    fn blank(&self, number: u32) -> TraFault {
        match self.held {
            None => no_header(),
            Some(_) => blank_between(number),
        }
    }

    fn finish(self) -> Result<Game, TraFault> {
        let UnorderedReader { alloc, held } = self;
        match held {
            None => Err(no_header()),
            Some(held) => held.finish(alloc),
        }
    }
}

/// Holds the rows behind a header: their transitions, and the first action of each choice.
#[derive(Drop)]
pub struct UnorderedRows {
    header: Header,
    transitions: Vec<Transition>,
    actions: LineActions,
    ghost accepted: { IsAccepted header },
    ghost within: { All (IsWithin header.states) transitions.items },
}

impl UnorderedRows {
    ghost use Rattle.tra_reader.specs.inside.AnyOrder.{BeginsUnordered, TakesUnordered, RefusesUnordered, AddsUnordered, RefusesUnorderedRow, FinishesUnordered};

    /// Reads the header from this line, and holds no row yet.
    pub fn begin(alloc: Global, line: &[u8]) -> Result<UnorderedRows, TraFault>
        ensures { BeginsUnordered line.now result }
    {
        let header = first_line(line)?;
        Ok(UnorderedRows {
            header,
            transitions: Vec::new(alloc),
            actions: LineActions::new(alloc),
        })
    }

    /// Takes the row of a line that is not blank.
    pub fn take(&mut self, number: u32, line: &[u8]) -> Result<(), TraFault>
        requires { fields_of line.now ≢ [] }
        ensures ok { OnOk result (TakesUnordered self.old self.new line.now) }
        ensures fault { MatchResult result (λ _. Unit {0}) (λ fault. RefusesUnordered self.old number line.now fault) }
    {
        match read_row(&self.header, self.transitions.len(), number, line) {
            Err(fault) => Err(fault),
            Ok((transition, action)) => self.add(number, transition, action),
        }
    }

    // Takes a row, unless it clashes with another row of its choice.
    fn add(&mut self, number: u32, transition: Transition, action: &[u8]) -> Result<(), TraFault>
        requires { IsWithin self.old.header.states transition }
        ensures ok { OnOk result
            (AddsUnordered self.old self.new (record { transition = transition; action = action.now })) }
        ensures fault { MatchResult result (λ _. Unit {0})
            (λ fault. RefusesUnorderedRow self.old number (record { transition = transition; action = action.now })
            fault) }
    {
        let place = transition.place();
        if self.actions.note(&self.transitions, place, action)? {
            return Err(TraFault::of_clash(number, &transition));
        }
        self.transitions.push(transition)?;
        Ok(())
    }

    /// Makes the game of the rows when the text has no more.
    pub fn finish(self, alloc: Global) -> Result<Game, TraFault>
        ensures { FinishesUnordered self result }
    {
        check_count(&self.header, self.transitions.len())?;
        build(alloc, self.transitions, &self.header)
    }
}
