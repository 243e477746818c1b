//! This module reads transition files whose text comes in pieces.

ghost use Rattle.std.specs.Prelude.{◌≡◌, ◌≤◌};
ghost use Rattle.text_lines.specs.Limits.{most_bytes};
ghost use Rattle.game_outside.specs.Files.{LeavesShelf, ReadsFile, RefusesCaused};
ghost use Rattle.game_outside.specs.Answers.{AnswersOrWants};
ghost use Rattle.transition_lines.specs.Faults.{IsOutOfMemory};
ghost use Rattle.transition_lines.specs.Text.{game_of};
ghost use Rattle.tra_reader.specs.inside.Reading.{IsAnswer};
ghost use Rattle.tra_reader.specs.inside.Ordered.{text_fault};
ghost use Rattle.tra_reader.specs.FileEnds.{is_out_of_memory, in_order_of, without_want_of};

use crate::any_order::UnorderedReader;
use crate::ordered::OrderedLines;
use crate::stop::Stop;
use distributions::ChoiceFault;
use game_model::Game;
use game_outside::{FileEnd, Shelf, read_lines_from};
use std::alloc::Global;
use transition_lines::{TraCause, TraFault};

/// Reads the game that the text under a name denotes, or its first fault, in whatever pieces the text comes. A text in
/// the order of its choices is read in one pass. Any other text is read again from its start.
pub fn read_tra_from<H: Shelf>(
    alloc: Global,
    shelf: &mut H,
    name: &str,
    limit: u64,
) -> Result<Game, FileEnd<TraFault>>
    requires { limit ≤ most_bytes }

    // The answer is what is said of the whole text.
    ensures reads { ReadsFile (λ text answer. game_of text ≡ answer) (H.held shelf.old) name.now limit result }
    ensures caused { RefusesCaused (λ fault. is_out_of_memory fault.cause) result }

    // A read fault comes only from the shelf. The call takes little more than the limit, and changes nothing of what
    // the shelf holds.
    ensures shelf { LeavesShelf H.Shelf name.now limit shelf.old shelf.new result }
{
    match in_order(read_in_order(alloc, shelf, name, limit)) {
        Some(read) => without_want(read),
        None => without_want(read_in_any_order(alloc, shelf, name, limit)),
    }
}

// Reads the game of a text that is in order.
fn read_in_order<H: Shelf>(
    alloc: Global,
    shelf: &mut H,
    name: &str,
    limit: u64,
) -> Result<Game, FileEnd<Stop>>
    requires { limit ≤ most_bytes }
    ensures reads { ReadsFile (λ text answer. IsAnswer text_fault answer (game_of text))
        (H.held shelf.old) name.now limit result }
    ensures shelf { LeavesShelf H.Shelf name.now limit shelf.old shelf.new result }
{
    let reader = OrderedLines::new(alloc);
    read_lines_from(alloc, shelf, name, limit, reader)
}

// Reads the game of a text in any order.
fn read_in_any_order<H: Shelf>(
    alloc: Global,
    shelf: &mut H,
    name: &str,
    limit: u64,
) -> Result<Game, FileEnd<TraFault>>
    requires { limit ≤ most_bytes }
    ensures reads { ReadsFile (λ text answer. AnswersOrWants IsOutOfMemory (λ g. g) answer (game_of text))
        (H.held shelf.old) name.now limit result }
    ensures shelf { LeavesShelf H.Shelf name.now limit shelf.old shelf.new result }
{
    let reader = UnorderedReader::new(alloc);
    read_lines_from(alloc, shelf, name, limit, reader)
}

// Returns what was read, unless a line was out of order.
fn in_order(read: Result<Game, FileEnd<Stop>>) -> Option<Result<Game, FileEnd<TraFault>>>
    ensures { result ≡ in_order_of read }
{
    match read {
        Ok(game) => Some(Ok(game)),
        Err(FileEnd::OutOfMemory) => Some(Err(FileEnd::OutOfMemory)),
        Err(FileEnd::ReadFault) => Some(Err(FileEnd::ReadFault)),
        Err(FileEnd::TooLong) => Some(Err(FileEnd::TooLong)),
        Err(FileEnd::Refused(Stop::Refused(fault))) => Some(Err(FileEnd::Refused(fault))),
        Err(FileEnd::Refused(Stop::OutOfOrder)) => None,
    }
}

// That memory ran out is no refusal of the text, but an end of its own.
fn without_want(read: Result<Game, FileEnd<TraFault>>) -> Result<Game, FileEnd<TraFault>>
    ensures { result ≡ without_want_of read }
{
    match read {
        Err(FileEnd::Refused(fault)) => {
            if is_out_of_memory(&fault.cause) {
                Err(FileEnd::OutOfMemory)
            } else {
                Err(FileEnd::Refused(fault))
            }
        }
        Err(end) => Err(end),
        Ok(game) => Ok(game),
    }
}

// Returns whether memory ran out, for the whole text or for a choice.
fn is_out_of_memory(cause: &TraCause) -> bool
    ensures { result ≡ is_out_of_memory cause.now }
{
    match cause {
        TraCause::OutOfMemory => true,
        TraCause::Choice { fault, .. } => matches!(fault, ChoiceFault::OutOfMemory),
        _ => false,
    }
}
