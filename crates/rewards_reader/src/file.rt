//! This module reads files of rewards whose text comes in pieces.

ghost use Rattle.std.specs.Prelude.{◌≡◌, ◌≤◌};
ghost use Rattle.text_lines.specs.Limits.{most_bytes};
ghost use Rattle.game_outside.specs.Files.{LeavesShelf, ReadsFile};
ghost use Rattle.rewards_reader.specs.Rewards.{IsSaid};
ghost use Rattle.rewards_reader.specs.Texts.{lines_said};
ghost use Rattle.rewards_reader.specs.inside.Ends.{end_of_file};

use crate::fault::{RewardsEnd, RewardsFault};
use crate::reader::RewardLines;
use crate::table::RewardTable;
use game_model::Game;
use game_outside::{FileEnd, Shelf, read_lines_from};
use std::alloc::Global;

/// Reads the rewards of a game from the text under a name, in whatever pieces the text comes. The error is a fault of
/// reading, that the text is too long, that memory ran out, or the first fault of the text.
pub fn read_rewards_from<H: Shelf>(
    alloc: Global,
    shelf: &mut H,
    name: &str,
    limit: u64,
    game: &Game,
) -> Result<RewardTable, FileEnd<RewardsFault>>
    requires { limit ≤ most_bytes }

    // The answer is what is said of the whole text.
    ensures reads { ReadsFile (λ text answer. IsSaid game.now (lines_said game.now text) answer)
        (H.held shelf.old) name.now limit result }

    // A read fault comes only from the shelf. The call takes little more than the limit, and changes nothing of what
    // the shelf holds.
    ensures shelf { LeavesShelf H.Shelf name.now limit shelf.old shelf.new result }
{
    match read_lines_from(alloc, shelf, name, limit, RewardLines::new(alloc, game)) {
        Ok(rewards) => Ok(rewards),
        Err(end) => Err(end_of_file(end)),
    }
}

// Returns the end of a file whose lines end like this.
fn end_of_file(end: FileEnd<RewardsEnd>) -> FileEnd<RewardsFault>
    ensures { result ≡ end_of_file end }
{
    match end {
        FileEnd::OutOfMemory => FileEnd::OutOfMemory,
        FileEnd::ReadFault => FileEnd::ReadFault,
        FileEnd::TooLong => FileEnd::TooLong,
        FileEnd::Refused(RewardsEnd::OutOfMemory) => FileEnd::OutOfMemory,
        FileEnd::Refused(RewardsEnd::Refused(fault)) => FileEnd::Refused(fault),
    }
}
