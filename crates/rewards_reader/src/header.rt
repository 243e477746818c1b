//! This module reads the first line of a file of rewards.

ghost use Rattle.std.specs.Prelude.{◌≡◌, ◌≤◌, IfOk};
ghost use Rattle.text_lines.specs.Text.{fields_of, number_of};
ghost use Rattle.rewards_reader.specs.Limits.{most_lines};
ghost use Rattle.rewards_reader.specs.Lines.{header_said, lines_stated};

use crate::fault::RewardsCause;
use crate::limits::MOST_LINES;
use game_model::Game;
use text_lines::{first_field, whole};

/// Reads the number of lines that a header states for a game, or gives its first fault.
pub fn read_header(game: &Game, line: &[u8]) -> Result<u32, RewardsCause>
    ensures said { result ≡ header_said game.now (fields_of line.now) }
    ensures few { IfOk result (λ lines. lines ≤ most_lines) }
{
    let Some((word, rest)) = first_field(line) else {
        return Err(RewardsCause::NoHeader);
    };
    let Some((states, rest)) = first_field(rest) else {
        return Err(RewardsCause::NoHeader);
    };
    let Some((lines, rest)) = first_field(rest) else {
        return Err(RewardsCause::NoHeader);
    };
    if first_field(rest).is_some() || word != b"rewards".as_slice() {
        return Err(RewardsCause::NoHeader);
    }
    stated(game, states, lines)
}

// Reads the two numbers of a header.
fn stated(game: &Game, states: &[u8], lines: &[u8]) -> Result<u32, RewardsCause>
    ensures said { result ≡ lines_stated game.now (number_of states.now) (number_of lines.now) }
    ensures few { IfOk result (λ lines. lines ≤ most_lines) }
{
    let Some(states) = whole(states) else {
        return Err(RewardsCause::NoHeader);
    };
    let Some(lines) = whole(lines) else {
        return Err(RewardsCause::NoHeader);
    };
    if states != u64::from(game.states()) {
        return Err(RewardsCause::StateCount);
    }
    if lines > u64::from(MOST_LINES) {
        return Err(RewardsCause::OverLimit);
    }
    Ok(lines as u32)
}
