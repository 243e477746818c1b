//! This module reads texts by lines, a piece at a time.

ghost use Rattle.std.specs.Prelude.{◌≡◌, ◌≢◌, ◌<◌, ◌≤◌, ◌+◌, ◌-◌, ◌^◌, ◌++◌, ◌∷◌, ◌⊎◌, ◌↔◌, [], ℕ, List, Bool, true, false, length, take, drop, IsOk, IsErrOf, IfOk, OnOk, OnErr, MatchResult, not, Result, Err, IfErr};
ghost use Rattle.std.specs.Io.KnownBytes.{Consumes, IsAtEnd};
ghost use Rattle.text_lines.specs.Text.{lines_of};
ghost use Rattle.text_lines.specs.Blank.{IsRightFor};
ghost use Rattle.text_lines.specs.Laws.{HasNo, EndsInNoCr};
ghost use Rattle.game_outside.specs.Limits.{piece_size};
ghost use Rattle.game_outside.specs.Outside.{Begins};
ghost use Rattle.game_outside.specs.Reading.{LeavesNamed, LeavesBegun};
ghost use Rattle.game_outside.specs.LineTexts.{Takes, GivesLine, MeetsEnd, Drops, LeavesText, HoldsPiece, IsOnTheWay, IsCut, IsUncut};

use crate::shelf::{PIECE, ReadEnd, Shelf};
use crate::whole_lines::feed_lines;
use memchr::memchr;
use std::alloc::{AllocError, Global};
use std::marker::Model;
use text_lines::laws::lines_end_in_lf_or_crlf;
use text_lines::{LineFeeder, LineReader, without_cr};

/// This text is being read by lines. It holds at most one piece of the text, and keeps no reference to the shelf, which
/// each call takes. After a refusal it is closed.
#[derive(Drop)]
pub struct LineText {
    piece: Vec<u8>,
    begin: usize,
    end: usize,
    taken: u64,
    limit: u64,
    closed: bool,
    ended: bool,
}

impl Model for LineText {
    ghost use Rattle.game_outside.specs.LineTexts.{TextUnderWay, under_way, IsUnderWay};

    ghost Value = { TextUnderWay };

    ghost view = { under_way };

    ghost invariant = { IsUnderWay };
}

impl LineText {
    /// Begins the text under a name. It takes a buffer of one piece.
    pub fn begin<H: Shelf>(
        alloc: Global,
        shelf: &mut H,
        name: &str,
        limit: u64,
    ) -> Result<LineText, ReadEnd>
        requires { limit < 2 ^ 64 - 1 }
        ensures begun { IfOk result (λ text. text ≡ record {
          held = [];
          taken = 0;
          limit = limit;
          closed = false;
          ended = false;
        }) }
        ensures rest { OnOk result (Begins (H.held shelf.old) name.now (H.rest shelf.new)) }
        ensures taken { H.taken shelf.new ≡ 0 }
        ensures shelf { LeavesNamed H.Shelf name.now limit shelf.old shelf.new result }
    {
        if shelf.begin(name).is_err() {
            return Err(ReadEnd::ReadFault);
        }
        let Ok(piece) = vec![in alloc; 0u8; PIECE] else {
            return Err(ReadEnd::OutOfMemory);
        };
        Ok(LineText {
            piece,
            begin: 0,
            end: 0,
            taken: 0,
            limit,
            closed: false,
            ended: false,
        })
    }

    /// Returns whether no call was refused.
    pub fn is_open(&self) -> bool
        ensures { result ≡ not self.now.closed }
    {
        !self.closed
    }

    /// Puts the next line, without its ending, in place of what `line` has. At the end of the text it answers false,
    /// and then the line is empty.
    pub fn next_line<H: Shelf>(
        &mut self,
        shelf: &mut H,
        line: &mut Vec<u8>,
    ) -> Result<bool, ReadEnd>
        requires open { self.old.closed ≡ false }
        requires taken { self.old.taken ≡ H.taken shelf.old }
        ensures line { result ≡ Ok true → GivesLine self.old self.new (H.rest shelf.old)
            (H.rest shelf.new) line.new.items }
        ensures end { result ≡ Ok false → MeetsEnd self.old self.new (H.rest shelf.old)
            (H.rest shelf.new) line.new.items }
        ensures text { LeavesText H.Shelf self.old self.new shelf.old shelf.new result }
        ensures shelf { LeavesBegun H.Shelf self.old.limit shelf.old shelf.new result }
    {
        self.invariant();
        line.clear();
        if self.ended {
            return Ok(false);
        }
        loop {
            match self.give(line) {
                Err(_) => {
                    self.closed = true;
                    return Err(ReadEnd::OutOfMemory);
                }
                Ok(true) => {
                    end_line(line);
                    return Ok(true);
                }
                Ok(false) => {}
            }
            if !self.fill(shelf)? {
                return Ok(is_last(line));
            }
        }
    }

    /// Takes what is left of the text, and drops it.
    pub fn finish<H: Shelf>(&mut self, shelf: &mut H) -> Result<(), ReadEnd>
        requires open { self.old.closed ≡ false }
        requires taken { self.old.taken ≡ H.taken shelf.old }
        ensures dropped { OnOk result (Drops self.old self.new (H.rest shelf.old) (H.rest shelf.new)) }
        ensures room { IsErrOf result ReadEnd.OutOfMemory → ⊥ }
        ensures text { LeavesText H.Shelf self.old self.new shelf.old shelf.new result }
        ensures shelf { LeavesBegun H.Shelf self.old.limit shelf.old shelf.new result }
    {
        self.invariant();
        while self.fill(shelf)? {}
        Ok(())
    }
}

impl LineText {
    // Passes on a line, and after it each line that lies whole in what is held, with no copy.
    pub(crate) fn push_line<R: LineReader>(
        &mut self,
        line: &[u8],
        feeder: &mut LineFeeder<R>,
    ) -> Result<(), R::Fault>
        requires { feeder.old.next + feeder.old.blanks + length self.old.held + 1 < 2 ^ 32 }
        ensures same { self.new ≡ record self.old { held = self.new.held } }
        ensures fewer { length self.new.held ≤ length self.old.held }
        ensures none { OnOk result (HasNo 10 self.new.held) }

        // Whatever follows the bytes that are held, an answer that is right for the lines still to come was right
        // before.
        ensures ok { OnOk result ((behind : List ℕ) (answer : Result R.Made R.Fault) →
            IsRightFor R.answers feeder.new.reader feeder.new.next feeder.new.blanks
            (lines_of (self.new.held ++ behind)) answer →
            IsRightFor R.answers feeder.old.reader feeder.old.next feeder.old.blanks
            (line.now ∷ lines_of (self.old.held ++ behind)) answer) }
        ensures fault { IfErr result (λ fault. (behind : List ℕ) →
            IsRightFor R.answers feeder.old.reader feeder.old.next feeder.old.blanks
            (line.now ∷ lines_of (self.old.held ++ behind)) (Err fault)) }
        ensures lines { OnOk result (feeder.new.next + feeder.new.blanks + length self.new.held
            ≤ feeder.old.next + feeder.old.blanks + 1 + length self.old.held) }
    {
        let rest = feed_lines(line, &self.piece[self.begin..self.end], feeder)?;
        self.begin = self.end - rest.len();
        Ok(())
    }

    // An open text has not passed its limit, and after the end nothing is held.
    fn invariant(&self)
        ensures within { self.now.closed ≡ false → self.now.taken ≤ self.now.limit }
        ensures over { self.now.ended ≡ true → self.now.held ≡ [] }
    {
        let _ = &self.piece;
    }

    // Puts the next piece of the text in place of what is held. It answers false at the end of the text, for which the
    // shelf is asked once.
    fn fill<H: Shelf>(&mut self, shelf: &mut H) -> Result<bool, ReadEnd>
        requires open { self.old.closed ≡ false }
        requires taken { self.old.taken ≡ H.taken shelf.old }
        ensures piece { OnOk result (Takes self.old self.new (H.rest shelf.old) (H.rest shelf.new) self.new.held) }
        ensures more { IfOk result (λ more. HoldsPiece more self.new) }
        ensures ended { self.old.ended ≡ true → result ≡ Ok false }
        ensures room { IsErrOf result ReadEnd.OutOfMemory → ⊥ }
        ensures text { LeavesText H.Shelf self.old self.new shelf.old shelf.new result }
        ensures shelf { LeavesBegun H.Shelf self.old.limit shelf.old shelf.new result }
    {
        self.invariant();
        self.begin = 0;
        self.end = 0;
        if self.ended {
            return Ok(false);
        }
        let Ok(count) = shelf.next(&mut self.piece) else {
            self.closed = true;
            return Err(ReadEnd::ReadFault);
        };
        self.end = count;
        self.taken = self.taken.saturating_add(count as u64);
        self.closed = self.taken > self.limit;
        if self.closed {
            return Err(ReadEnd::TooLong);
        }
        self.ended = count == 0;
        Ok(count > 0)
    }

    // Appends the bytes that are held to the line, up to the next LF, which is dropped. It answers false if there is no
    // LF.
    fn give(&mut self, line: &mut Vec<u8>) -> Result<bool, AllocError>
        requires { self.old.ended ≡ false }
        ensures same { self.new ≡ record self.old { held = self.new.held } }
        ensures lf { result ≡ Ok true → IsCut line.old.items line.new.items self.old.held self.new.held }
        ensures none { result ≡ Ok false → IsUncut line.old.items line.new.items self.old.held self.new.held }
    {
        let held = &self.piece[self.begin..self.end];
        match memchr(b'\n', held) {
            Some(place) => {
                line.extend_from_slice(&held[..place])?;
                self.begin += place + 1;
                Ok(true)
            }
            None => {
                line.extend_from_slice(held)?;
                self.begin = self.end;
                Ok(false)
            }
        }
    }
}

// Drops the CR before the LF that ends a line.
fn end_line(line: &mut Vec<u8>)
    requires { HasNo 10 line.old.items }
    ensures { (behind : List ℕ) → lines_of (line.old.items ++ 10 ∷ behind) ≡ line.new.items ∷ lines_of behind }
{
    let length = without_cr(line).len();
    line.truncate(length);
}

// Returns whether these are the bytes of a last line, which has no ending.
fn is_last(line: &[u8]) -> bool
    requires { HasNo 10 line.now }
    ensures last { result ≡ true → lines_of line.now ≡ line.now ∷ [] }
    ensures some { result ≡ true → 0 < length line.now }
    ensures none { result ≡ false → line.now ≡ [] }
{
    lines_end_in_lf_or_crlf();
    !line.is_empty()
}
