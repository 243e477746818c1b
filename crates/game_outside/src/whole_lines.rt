//! This module passes on lines without a copy.

ghost use Rattle.std.specs.Prelude.{◌<◌, ◌≤◌, ◌+◌, ◌^◌, ◌++◌, ◌∷◌, ℕ, List, Result, Err, length, IfOk, IfErr};
ghost use Rattle.text_lines.specs.Blank.{IsRightFor};
ghost use Rattle.text_lines.specs.Text.{lines_of};
ghost use Rattle.text_lines.specs.Laws.{HasNo, IsEndOf};

use text_lines::{LineFeeder, LineReader, ended_line};

// Passes on a line, and after it each line that ends in an LF of these bytes. It returns what follows the last LF, the
// front of a line that may go on. `LineFeeder::line` is called in one place, so that the compiler may put the reader
// into this loop.
pub(crate) fn feed_lines<'b, R: LineReader>(
    line: &[u8],
    bytes: &'b [u8],
    feeder: &mut LineFeeder<R>,
) -> Result<&'b [u8], R::Fault>
    requires { feeder.old.next + feeder.old.blanks + length bytes.now + 1 < 2 ^ 32 }
    ensures rest { IfOk result (λ rest. IsEndOf rest.now bytes.now) }
    ensures none { IfOk result (λ rest. HasNo 10 rest.now) }

    // Whatever follows these bytes, an answer that is right for the lines still to come was right before.
    ensures ok { IfOk result (λ rest. (behind : List ℕ) (answer : Result R.Made R.Fault) →
        IsRightFor R.answers feeder.new.reader feeder.new.next feeder.new.blanks
        (lines_of (rest.now ++ behind)) answer →
        IsRightFor R.answers feeder.old.reader feeder.old.next feeder.old.blanks
        (line.now ∷ lines_of (bytes.now ++ behind)) answer) }
    ensures fault { IfErr result (λ fault. (behind : List ℕ) →
        IsRightFor R.answers feeder.old.reader feeder.old.next feeder.old.blanks
        (line.now ∷ lines_of (bytes.now ++ behind)) (Err fault)) }

    // Each of the lines after the first has at least one byte, its LF.
    ensures lines { IfOk result (λ rest. feeder.new.next + feeder.new.blanks + length rest.now
        ≤ feeder.old.next + feeder.old.blanks + 1 + length bytes.now) }
{
    let mut line = line;
    let mut rest = bytes;
    loop {
        feeder.line(line)?;
        let Some((next, behind)) = ended_line(rest) else {
            return Ok(rest);
        };
        line = next;
        rest = behind;
    }
}
