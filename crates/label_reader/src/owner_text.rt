//! This module reads owner files.

ghost use Rattle.std.specs.Prelude.{◌≡◌, ◌≤◌, IfOk, length};
ghost use Rattle.game_outside.specs.Answers.{AnswersOrWants};
ghost use Rattle.label_lines.specs.Texts.{owners_of, IsOutOfMemory};

use crate::owner_table::OwnerTable;
use crate::owners::Owners;
use label_lines::{HeadedLines, LabFault};
use std::alloc::Global;
use text_lines::{MOST_BYTES, read_lines};

/// Reads the lines of an owner file.
pub(crate) type OwnerLines = HeadedLines<OwnerTable>;

/// Reads the owners of `states` states that a text denotes, or its first fault. What is said of a text is what it
/// denotes: `label_lines::laws::owners_are_those_that_a_text_denotes`.
pub fn read_owners(alloc: Global, bytes: &[u8], states: u32) -> Result<Owners, LabFault>
    requires { length bytes.now ≤ MOST_BYTES }
    ensures exact { AnswersOrWants IsOutOfMemory (λ x. x) result (owners_of bytes.now states) }
    ensures sizes { IfOk result (λ owners. length owners.owners ≡ states) }
{
    read_lines(bytes, OwnerLines::new(alloc, states))
}
