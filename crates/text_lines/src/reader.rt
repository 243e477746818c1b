//! This module has readers that take the lines of a text one after another.

ghost use Rattle.std.specs.Prelude.{◌≡◌, ◌≢◌, ◌+◌, ◌<◌, ◌≤◌, ◌∷◌, ◌^◌, [], ℕ, List, Result, Err, OnOk, IfErr, MatchResult, length};
ghost use Rattle.text_lines.specs.Text.{lines_of, fields_of, significant};
ghost use Rattle.text_lines.specs.Blank.{IsRightFor};

use crate::fields::is_blank_line;
use crate::lines::first_line;

/// A reader takes the lines of a text one after another, and makes a value of them at the end.
///
/// It takes the lines up to the last that is not blank. Its answer about a text does not depend on how the lines come,
/// so it serves texts that are held and texts that come in pieces.
pub trait LineReader: Drop {
    /// The reader makes this of a text.
    type Made;

    /// This says why a text is refused.
    type Fault;

    /// This is the answer for a text that goes on with these lines, of which the first has this number.
    ghost answers: { Self → ℕ → List (List ℕ) → Result Self.Made Self.Fault → Type 0 };

    /// Takes the next line, or says why the text is refused, whatever follows that line. After a refusal it takes no
    /// more.
    fn take(&mut self, number: u32, line: &[u8]) -> Result<(), Self::Fault>
        requires { fields_of line.now ≢ [] }
        ensures ok { OnOk result ((lines : List (List ℕ)) (answer : Result Self.Made Self.Fault)
            → answers self.new (number + 1) lines answer → answers self.old number (line.now ∷ lines) answer) }
        ensures fault { MatchResult result (λ _. Unit {0})
            (λ fault. (lines : List (List ℕ)) → answers self.old number (line.now ∷ lines) (Err fault)) };

    /// Says why a text is refused if a blank line comes next, and lines that count come after it.
    fn blank(&self, number: u32) -> Self::Fault
        ensures { (line : List ℕ) (lines : List (List ℕ)) → fields_of line ≡ []
            → answers self.now number (line ∷ lines) (Err result) };

    /// Returns what the reader makes of the text, which is at its end.
    fn finish(self) -> Result<Self::Made, Self::Fault>
        ensures { (number : ℕ) → answers self number [] result };
}

/// A feeder passes the lines of a text on to a reader. Blank lines wait until another line follows, since those at the
/// end of a text don't count.
#[derive(Drop)]
pub struct LineFeeder<R: LineReader> {
    reader: R,
    next: u32,
    blanks: u32,
}

impl<R: LineReader> LineFeeder<R> {
    /// Returns the feeder of a reader that has taken nothing yet.
    pub fn new(reader: R) -> LineFeeder<R>
        ensures reader { result.reader ≡ reader }
        ensures next { result.next ≡ 1 }
        ensures blanks { result.blanks ≡ 0 }
    {
        LineFeeder {
            reader,
            next: 1,
            blanks: 0,
        }
    }

    /// Passes on the next line, or says why the text is refused.
    pub fn line(&mut self, line: &[u8]) -> Result<(), R::Fault>
        requires { self.old.next + self.old.blanks + 1 < 2 ^ 32 }
        ensures ok { OnOk result ((lines : List (List ℕ)) (answer : Result R.Made R.Fault) →
            IsRightFor R.answers self.new.reader self.new.next self.new.blanks lines answer →
            IsRightFor R.answers self.old.reader self.old.next self.old.blanks (line.now ∷ lines) answer) }
        ensures fault { IfErr result (λ fault. (lines : List (List ℕ)) →
            IsRightFor R.answers self.old.reader self.old.next self.old.blanks (line.now ∷ lines) (Err fault)) }
        ensures count { OnOk result (self.new.next + self.new.blanks ≡ self.old.next + self.old.blanks + 1) }
    {
        if is_blank_line(line) {
            self.blanks += 1;
            return Ok(());
        }
        if self.blanks > 0 {
            return Err(self.reader.blank(self.next));
        }
        self.reader.take(self.next, line)?;
        self.next += 1;
        Ok(())
    }

    /// Returns what the reader makes of the text, which is at its end.
    pub fn end(self) -> Result<R::Made, R::Fault>
        ensures { IsRightFor R.answers self.reader self.next self.blanks [] result }
    {
        self.reader.finish()
    }
}

/// Returns what a reader makes of a text that is held.
pub fn read_lines<R: LineReader>(text: &[u8], reader: R) -> Result<R::Made, R::Fault>
    requires { length text.now + 2 < 2 ^ 32 }
    ensures { R.answers reader 1 (significant (lines_of text.now)) result }
{
    let mut feeder = LineFeeder::new(reader);
    let mut rest = text;
    while let Some((line, after)) = first_line(rest) {
        feeder.line(line)?;
        rest = after;
    }
    feeder.end()
}
