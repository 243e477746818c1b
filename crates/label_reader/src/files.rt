//! This module reads label files and owner files whose text comes in pieces.

ghost use Rattle.std.specs.Prelude.{◌≡◌, ◌≤◌, IfOk, length};
ghost use Rattle.text_lines.specs.Limits.{most_bytes};
ghost use Rattle.game_outside.specs.Files.{LeavesShelf, ReadsFile, RefusesCaused};
ghost use Rattle.label_lines.specs.Texts.{labels_of, owners_of, said_by};
ghost use Rattle.label_reader.specs.Refused.{is_out_of_memory, IsWithoutWant};

use crate::label_sets::LabelSets;
use crate::labels::Labels;
use crate::owner_table::OwnerTable;
use crate::owners::Owners;
use game_outside::{FileEnd, Shelf, read_lines_from};
use label_lines::{BehindHeader, HeadedLines, LabCause, LabFault};
use std::alloc::Global;

/// Reads the labels of `states` states that the text under a name denotes, or its first fault, in whatever pieces the
/// text comes.
pub fn read_labels_from<H: Shelf>(
    alloc: Global,
    shelf: &mut H,
    name: &str,
    limit: u64,
    states: u32,
) -> Result<Labels, FileEnd<LabFault>>
    requires { limit ≤ most_bytes }

    // The answer is what is said of the whole text.
    ensures reads { ReadsFile (λ text answer. labels_of text states ≡ answer) (H.held shelf.old) name.now limit result }
    ensures caused { RefusesCaused (λ fault. is_out_of_memory fault.cause) result }
    ensures sizes { IfOk result (λ labels. labels.states ≡ states) }

    // A read fault comes only from the shelf. The call takes little more than the limit, and changes nothing of what
    // the shelf holds.
    ensures shelf { LeavesShelf H.Shelf name.now limit shelf.old shelf.new result }
{
    read_from::<H, LabelSets>(alloc, shelf, name, limit, states)
}

/// Reads the owners of `states` states that the text under a name denotes, or its first fault, in whatever pieces the
/// text comes.
pub fn read_owners_from<H: Shelf>(
    alloc: Global,
    shelf: &mut H,
    name: &str,
    limit: u64,
    states: u32,
) -> Result<Owners, FileEnd<LabFault>>
    requires { limit ≤ most_bytes }

    // The answer is what is said of the whole text.
    ensures reads { ReadsFile (λ text answer. owners_of text states ≡ answer) (H.held shelf.old) name.now limit result }
    ensures caused { RefusesCaused (λ fault. is_out_of_memory fault.cause) result }
    ensures sizes { IfOk result (λ owners. length owners.owners ≡ states) }

    // A read fault comes only from the shelf. The call takes little more than the limit, and changes nothing of what
    // the shelf holds.
    ensures shelf { LeavesShelf H.Shelf name.now limit shelf.old shelf.new result }
{
    read_from::<H, OwnerTable>(alloc, shelf, name, limit, states)
}

// Reads what a header and the lines behind it make, in the text under a name.
fn read_from<H: Shelf, B: BehindHeader>(
    alloc: Global,
    shelf: &mut H,
    name: &str,
    limit: u64,
    states: u32,
) -> Result<B::Made, FileEnd<LabFault>>
    requires { limit ≤ most_bytes }
    ensures reads { ReadsFile (λ text answer. said_by B.kind states (B.make states) text ≡ answer)
        (H.held shelf.old) name.now limit result }
    ensures caused { RefusesCaused (λ fault. is_out_of_memory fault.cause) result }
    ensures shelf { LeavesShelf H.Shelf name.now limit shelf.old shelf.new result }
{
    let reader = HeadedLines::<B>::new(alloc, states);
    without_want(read_lines_from(alloc, shelf, name, limit, reader))
}

// That memory ran out is no refusal of the text, but an end of its own.
fn without_want<T>(read: Result<T, FileEnd<LabFault>>) -> Result<T, FileEnd<LabFault>>
    ensures { IsWithoutWant read result }
{
    match read {
        Err(FileEnd::Refused(fault)) => match fault.cause {
            LabCause::OutOfMemory => Err(FileEnd::OutOfMemory),
            _ => Err(FileEnd::Refused(fault)),
        },
        Err(end) => Err(end),
        Ok(value) => Ok(value),
    }
}
