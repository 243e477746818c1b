//! This module reads a whole text.

ghost use Rattle.std.specs.Prelude.{◌≤◌, length};
ghost use Rattle.text_lines.specs.Limits.{most_bytes};
ghost use Rattle.game_outside.specs.Answers.{AnswersOrWants};
ghost use Rattle.transition_lines.specs.Faults.{IsOutOfMemory};
ghost use Rattle.transition_lines.specs.Text.{game_of};

use crate::any_order::UnorderedReader;
use crate::ordered::OrderedLines;
use crate::stop::Stop;
use game_model::Game;
use std::alloc::Global;
use text_lines::read_lines;
use transition_lines::TraFault;

/// Reads the game that a transition text denotes, or the text's first fault. A text in order is read in one pass. Any
/// other text is read again from its start. What is said of a text is what it denotes:
/// `transition_lines::laws::said_is_denoted`.
pub fn read_tra(alloc: Global, bytes: &[u8]) -> Result<Game, TraFault>
    requires { length bytes.now ≤ most_bytes }
    ensures { AnswersOrWants IsOutOfMemory (λ g. g) result (game_of bytes.now) }
{
    match read_lines(bytes, OrderedLines::new(alloc)) {
        Ok(game) => Ok(game),
        Err(Stop::Refused(fault)) => Err(fault),
        Err(Stop::OutOfOrder) => read_lines(bytes, UnorderedReader::new(alloc)),
    }
}
