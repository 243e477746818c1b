//! This module reads transition lines that come in the order of their choices.

ghost use Rattle.std.specs.Prelude.{◌≡◌, ◌≢◌, ◌≤◌, ◌<◌, [], ℕ, List, IfOk, OnOk, MatchResult, length};
ghost use Rattle.text_lines.specs.Text.{fields_of};
ghost use Rattle.transition_lines.specs.Order.{IsWithin, transition_place};
ghost use Rattle.transition_lines.specs.Lines.{Row};
ghost use Rattle.transition_lines.specs.Text.{transitions};
ghost use Rattle.transition_lines.specs.Answers.{IsAccepted, row_place};
ghost use Rattle.tra_reader.specs.inside.GrowingGames.{HoldsInOrder, place_under_way};
ghost use Rattle.tra_reader.specs.inside.ActionUnderWay.{IsActionUnderWay, ComparesAction};

use crate::body::{blank_between, check_count, first_line, no_header, read_row};
use crate::game_in_order::GameInOrder;
use crate::stop::Stop;
use game_model::Game;
use std::alloc::{AllocError, Global};
use text_lines::LineReader;
use transition_lines::{Header, TraFault, Transition};

/// Reads a text whose transitions come in the order of their choices. It keeps no row, and stops at the first line that
/// comes before the choice under way.
#[derive(Drop)]
pub struct OrderedLines {
    alloc: Global,
    held: Option<OrderedRows>,
}

impl OrderedLines {
    ghost use Rattle.std.specs.Prelude.{None};

    /// Makes a reader that has read no line.
    pub fn new(alloc: Global) -> OrderedLines
        ensures { result.held ≡ None }
    {
        OrderedLines { alloc, held: None }
    }
}

impl LineReader for OrderedLines {
    ghost use Rattle.tra_reader.specs.inside.Ordered.{IsRightInOrder};

    type Made = Game;

    type Fault = Stop;

    ghost answers = { λ reader number lines answer. IsRightInOrder reader.held number lines answer };

    fn take(&mut self, number: u32, line: &[u8]) -> Result<(), Stop> {
        match &mut self.held {
            None => {
                self.held = Some(OrderedRows::begin(self.alloc, line)?);
                Ok(())
            }
            Some(held) => held.take(self.alloc, number, line),
        }
    }

    fn blank(&self, number: u32) -> Stop {
        match self.held {
            None => Stop::Refused(no_header()),
            Some(_) => Stop::Refused(blank_between(number)),
        }
    }

    fn finish(self) -> Result<Game, Stop> {
        let OrderedLines { alloc, held } = self;
        match held {
            None => Err(Stop::Refused(no_header())),
            Some(held) => Ok(held.finish(alloc)?),
        }
    }
}

/// Holds the rows behind a header, as the game that they make so far, and the action of the choice under way.
#[derive(Drop)]
pub struct OrderedRows {
    header: Header,
    read: usize,
    game: GameInOrder,
    action: Vec<u8>,
    ghost accepted: { IsAccepted header },
    ghost states: { game.states ≡ header.states },
}

impl OrderedRows {
    ghost use Rattle.std.specs.Prelude.{false, true, ◌==◌, ◌++◌, ◌∷◌, Some};
    ghost use Rattle.tra_reader.specs.inside.Ordered.{BeginsOrdered, TakesOrdered, RefusesOrdered, AddsOrdered, RefusesOrderedRow, FinishesOrdered};

    /// Reads the header from this line, and holds no row yet.
    pub fn begin(alloc: Global, line: &[u8]) -> Result<OrderedRows, TraFault>
        ensures { BeginsOrdered line.now result }
    {
        let header = first_line(line)?;
        let game = GameInOrder::new(alloc, header.states)?;
        Ok(OrderedRows {
            header,
            read: 0,
            game,
            action: Vec::new(alloc),
        })
    }

    /// Takes the row of a line that is not blank.
    pub fn take(&mut self, alloc: Global, number: u32, line: &[u8]) -> Result<(), Stop>
        requires { fields_of line.now ≢ [] }
        ensures ok { OnOk result (TakesOrdered self.old self.new line.now) }
        ensures fault { MatchResult result (λ _. Unit {0}) (λ stop. RefusesOrdered self.old number line.now stop) }
    {
        match read_row(&self.header, self.read, number, line) {
            Err(fault) => Err(Stop::Refused(fault)),
            Ok((transition, action)) => self.add(alloc, number, &transition, action),
        }
    }

    // Takes a row, unless it clashes with another row of its choice.
    fn add(
        &mut self,
        alloc: Global,
        number: u32,
        transition: &Transition,
        action: &[u8],
    ) -> Result<(), Stop>
        requires within { IsWithin self.old.header.states transition.now }
        requires few { self.old.read < self.old.header.lines }
        ensures ok { OnOk result (AddsOrdered self.old self.new
            (record { transition = transition.now; action = action.now })) }
        ensures fault { MatchResult result (λ _. Unit {0})
            (λ stop. RefusesOrderedRow self.old number
            (record { transition = transition.now; action = action.now }) stop) }
    {
        let place = transition.place();
        if place < self.game.place() {
            return Err(Stop::OutOfOrder);
        }
        if compare(&self.game, &mut self.action, place, action)? {
            return Err(Stop::Refused(TraFault::of_clash(number, transition)));
        }
        self.game.add(alloc, transition)?;
        self.read += 1;
        Ok(())
    }

    /// Makes the game of the rows when the text has no more.
    pub fn finish(self, alloc: Global) -> Result<Game, TraFault>
        ensures { FinishesOrdered self result }
    {
        check_count(&self.header, self.read)?;
        self.game.finish(alloc, self.header.choices)
    }
}

// Returns whether an action differs from that of the first line of its choice. The action of a new choice is kept.
fn compare(
    game: &GameInOrder,
    kept: &mut Vec<u8>,
    place: u64,
    action: &[u8],
) -> Result<bool, AllocError>
    requires { place_under_way game.now ≤ place }
    ensures { IfOk result (λ clash. (n : ℕ) (rows : List Row) (row : Row) → row_place row ≡ place
        → row.action ≡ action.now → HoldsInOrder game.now n (transitions rows)
        → IsActionUnderWay game.now kept.old.items rows
        → ComparesAction kept.new.items rows row clash) }
{
    if game.has_begun() && place == game.place() {
        return Ok(kept.as_slice() != action);
    }
    kept.clear();
    kept.extend_from_slice(action)?;
    Ok(false)
}
