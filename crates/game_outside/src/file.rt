//! This module reads files by lines.

ghost use Rattle.std.specs.Prelude.{◌≡◌, ◌≤◌};
ghost use Rattle.text_lines.specs.Limits.{most_bytes};
ghost use Rattle.text_lines.specs.Text.{lines_of, significant};
ghost use Rattle.game_outside.specs.Files.{LeavesShelf, ReadsFile};

use crate::line_text::LineText;
use crate::shelf::{ReadEnd, Shelf};
use std::alloc::Global;
use text_lines::{LineFeeder, LineReader};

/// This says why a file gives nothing.
#[derive(Clone, Copy, Debug, PartialEq, Eq, Drop)]
pub enum FileEnd<F> {
    /// Memory ran out.
    OutOfMemory,
    /// A call of the shelf failed.
    ReadFault,
    /// The text is longer than the limit.
    TooLong,
    /// The reader refuses the text.
    Refused(F),
}

impl<F: Drop> From<ReadEnd> for FileEnd<F> {
    ghost use Rattle.game_outside.specs.Files.{of_read};

    ghost from_gives = { λ end result. result ≡ of_read end };

    fn from(end: ReadEnd) -> Self {
        match end {
            ReadEnd::OutOfMemory => FileEnd::OutOfMemory,
            ReadEnd::ReadFault => FileEnd::ReadFault,
            ReadEnd::TooLong => FileEnd::TooLong,
        }
    }
}

/// Returns what a reader makes of the text under a name, which comes in pieces. It keeps one piece of the text and one
/// line. A fault of reading, and a text that is too long, take precedence over the reader's refusal, so the rest of the
/// text is taken first.
pub fn read_lines_from<H: Shelf, R: LineReader>(
    alloc: Global,
    shelf: &mut H,
    name: &str,
    limit: u64,
    reader: R,
) -> Result<R::Made, FileEnd<R::Fault>>
where
    R::Fault: Drop,
    requires { limit ≤ most_bytes }

    // The answer is the reader's for the whole text, however it is cut into pieces.
    ensures reads { ReadsFile (λ text answer. R.answers reader 1 (significant (lines_of text)) answer)
        (H.held shelf.old) name.now limit result }

    // It answers a fault of reading only if the shelf fails, takes at most a piece more than the limit, and changes
    // nothing of what the shelf holds.
    ensures shelf { LeavesShelf H.Shelf name.now limit shelf.old shelf.new result }
{
    let mut text = LineText::begin(alloc, shelf, name, limit)?;
    let mut line = Vec::new(alloc);
    let mut feeder = LineFeeder::new(reader);
    while text.next_line(shelf, &mut line)? {
        if let Err(fault) = text.push_line(&line, &mut feeder) {
            text.finish(shelf)?;
            return Err(FileEnd::Refused(fault));
        }
    }
    match feeder.end() {
        Ok(made) => Ok(made),
        Err(fault) => Err(FileEnd::Refused(fault)),
    }
}
