//! This module reads files of rewards.

ghost use Rattle.std.specs.Prelude.{◌≡◌, ◌≤◌, length};
ghost use Rattle.text_lines.specs.Limits.{most_bytes};
ghost use Rattle.rewards_reader.specs.Rewards.{IsAnswer};
ghost use Rattle.rewards_reader.specs.Texts.{lines_said};
ghost use Rattle.rewards_reader.specs.inside.Kept.{IsRight};

use crate::fault::{RewardsCause, RewardsEnd};
use crate::kept::KeptLines;
use crate::table::RewardTable;
use game_model::Game;
use std::alloc::Global;
use text_lines::{LineReader, read_lines};

/// Reads the lines of a file of rewards: its header, and then the lines behind it.
#[derive(Drop)]
pub struct RewardLines<'g> {
    alloc: Global,
    game: &'g Game,
    table: Option<KeptLines<'g>>,
}

impl<'g> RewardLines<'g> {
    ghost use Rattle.std.specs.Prelude.{◌≡◌, None};

    /// Makes a reader that has taken no line.
    pub fn new(alloc: Global, game: &'g Game) -> RewardLines<'g>
        ensures game { result.game.now ≡ game.now }
        ensures table { result.table ≡ None }
    {
        RewardLines {
            alloc,
            game,
            table: None,
        }
    }
}

impl<'g> LineReader for RewardLines<'g> {
    type Made = RewardTable;

    type Fault = RewardsEnd;

    ghost answers = { λ reader number lines answer. IsRight reader.game.now reader.table number lines answer };

    fn take(&mut self, number: u32, line: &[u8]) -> Result<(), RewardsEnd> {
        match &mut self.table {
            Some(table) => table.take(number, line),
            None => {
                self.table = Some(KeptLines::begin(self.alloc, self.game, line)?);
                Ok(())
            }
        }
    }

    fn blank(&self, number: u32) -> RewardsEnd {
        match &self.table {
            Some(table) => table.blank(number),
            None => RewardsEnd::at(1, RewardsCause::NoHeader),
        }
    }

    fn finish(self) -> Result<RewardTable, RewardsEnd> {
        let RewardLines {
            alloc: _,
            game: _,
            table,
        } = self;
        match table {
            Some(table) => table.finish(),
            None => Err(RewardsEnd::at(1, RewardsCause::NoHeader)),
        }
    }
}

/// Reads the rewards of a game from a text, or the first fault of the text.
pub fn read_rewards(alloc: Global, text: &[u8], game: &Game) -> Result<RewardTable, RewardsEnd>
    requires { length text.now ≤ most_bytes }
    ensures { IsAnswer game.now (lines_said game.now text.now) result }
{
    read_lines(text, RewardLines::new(alloc, game))
}
