//! This module keeps the rewards of the lines behind a header.

ghost use Rattle.std.specs.Prelude.{◌≡◌, ◌<◌, ◌≤◌, ◌+◌, length, replicate, slice_index_or, slice_set, is_some, IfOk, None};
ghost use Rattle.game_model.specs.Game.{choices_below};
ghost use Rattle.rewards_reader.specs.Amounts.{AreAmounts};
ghost use Rattle.rewards_reader.specs.Limits.{most_lines};

use crate::amount::Amount;
use crate::fault::{RewardsCause, RewardsEnd};
use crate::header::read_header;
use crate::line::{RewardLine, read_line};
use crate::table::{RewardTable, place_of};
use game_model::Game;
use std::alloc::{AllocError, Global};

/// Keeps the rewards of the lines so far, in the order of the states: an entry for the state, and behind it one for
/// each of its choices.
#[derive(Drop)]
pub struct KeptLines<'g> {
    game: &'g Game,
    stated: u32,
    count: u32,
    entries: Vec<Option<Amount>>,
    ghost many: { length entries.items ≡ choices_below game.now (length game.now) + length game.now },
    ghost few: { stated ≤ most_lines },
    ghost within: { count ≤ stated },
    ghost amounts: { AreAmounts entries.items },
}

impl<'g> KeptLines<'g> {
    ghost use Rattle.std.specs.Prelude.{◌≡◌, ◌<◌, ◌+◌, [], ◌∷◌, ℕ, List, Some, None, Ok, length, slice_index_or, slice_set, is_some, IfOk, IfErr, OnOk};
    ghost use Rattle.text_lines.specs.Text.{fields_of};
    ghost use Rattle.rewards_reader.specs.declared.fault.RewardsCause.TheVariants.{LineCount};
    ghost use Rattle.rewards_reader.specs.declared.line.RewardLine.{RewardLine};
    ghost use Rattle.rewards_reader.specs.Lines.{header_said, next_line};
    ghost use Rattle.rewards_reader.specs.Rewards.{IsOfGame, place_of, IsAnswer};
    ghost use Rattle.rewards_reader.specs.Texts.{lines_from};
    ghost use Rattle.rewards_reader.specs.inside.Kept.{IsKept, IsEndAt, Begins, TakesLine, RefusesLine};

    /// Reads the header, and keeps no reward yet.
    pub fn begin(alloc: Global, game: &'g Game, line: &[u8]) -> Result<KeptLines<'g>, RewardsEnd>
        ensures ok { IfOk result (λ table. Begins game.now line.now table) }
        ensures fault { IfErr result (λ end. IsEndAt 1 (header_said game.now (fields_of line.now)) end) }
    {
        let stated = match read_header(game, line) {
            Err(cause) => return Err(RewardsEnd::at(1, cause)),
            Ok(stated) => stated,
        };
        match no_rewards(alloc, game) {
            Err(_) => Err(RewardsEnd::OutOfMemory),
            Ok(entries) => Ok(KeptLines {
                game,
                stated,
                count: 0,
                entries,
            }),
        }
    }

    /// Takes the line of this number, or gives its fault.
    pub fn take(&mut self, number: u32, line: &[u8]) -> Result<(), RewardsEnd>
        ensures ok { OnOk result (TakesLine self.old self.new line.now) }
        ensures fault { IfErr result (RefusesLine self.old number (fields_of line.now)) }
    {
        match self.next_line(line) {
            Err(cause) => Err(RewardsEnd::at(number, cause)),
            Ok(next) => {
                self.put(&next);
                Ok(())
            }
        }
    }

    // Reads the next line, or gives its fault.
    fn next_line(&self, line: &[u8]) -> Result<RewardLine, RewardsCause>
        ensures said { (before : List RewardLine) → IsKept self.now before
            → result ≡ next_line self.now.game.now self.now.stated before (fields_of line.now) }
        ensures inside { IfOk result (λ next. IsOfGame self.now.game.now next.state next.choice) }
        ensures room { OnOk result (self.now.count < self.now.stated) }
    {
        if self.count >= self.stated {
            return Err(self.one_too_many());
        }
        match read_line(self.game, line) {
            Err(cause) => Err(cause),
            Ok(next) => {
                if self.has(&next) {
                    return Err(RewardsCause::DoubleLine);
                }
                Ok(next)
            }
        }
    }

    // Returns the cause that there is a line more than stated.
    fn one_too_many(&self) -> RewardsCause
        ensures { result ≡ LineCount (self.now.stated + 1) self.now.stated }
    {
        RewardsCause::LineCount {
            read: self.stated + 1,
            stated: self.stated,
        }
    }

    // Says whether a line that is kept is about the same state or choice.
    fn has(&self, line: &RewardLine) -> bool
        requires { IsOfGame self.now.game.now line.now.state line.now.choice }
        ensures { result ≡ is_some (slice_index_or self.now.entries.items
            (place_of self.now.game.now line.now.state line.now.choice) None) }
    {
        self.entries[place_of(self.game, line.state, line.choice)].is_some()
    }

    // Keeps the reward of a line.
    fn put(&mut self, line: &RewardLine)
        requires inside { IsOfGame self.old.game.now line.now.state line.now.choice }
        requires room { self.old.count < self.old.stated }
        ensures entries { self.new.entries.items ≡ slice_set self.old.entries.items
            (place_of self.old.game.now line.now.state line.now.choice) (Some line.now.reward) }
        ensures count { self.new.count ≡ self.old.count + 1 }
        ensures game { self.new.game.now ≡ self.old.game.now }
        ensures stated { self.new.stated ≡ self.old.stated }
    {
        line.reward.invariant();
        let place = place_of(self.game, line.state, line.choice);
        self.entries[place] = Some(line.reward);
        self.count += 1;
    }

    /// Returns the fault of a blank line of this number.
    pub fn blank(&self, number: u32) -> RewardsEnd
        ensures { RefusesLine self.now number [] result }
    {
        if self.count >= self.stated {
            return RewardsEnd::at(number, self.one_too_many());
        }
        RewardsEnd::at(number, RewardsCause::FieldCount)
    }

    /// Returns the rewards when the text has no more lines, unless lines are missing.
    pub fn finish(self) -> Result<RewardTable, RewardsEnd>
        ensures { (before : List RewardLine) (number : ℕ) → IsKept self.entry before → IsAnswer self.entry.game.now
            (lines_from self.entry.game.now self.entry.stated before number []) result }
    {
        let KeptLines {
            game: _,
            stated,
            count,
            entries,
        } = self;
        if count < stated {
            let cause = RewardsCause::LineCount {
                read: count,
                stated,
            };
            return Err(RewardsEnd::at(0, cause));
        }
        Ok(RewardTable::new(entries))
    }
}

// Returns the entries of a game for which no line gives a reward.
fn no_rewards(alloc: Global, game: &Game) -> Result<Vec<Option<Amount>>, AllocError>
    ensures { IfOk result (λ entries. entries.items
        ≡ replicate (choices_below game.now (length game.now) + length game.now) None) }
{
    let states = game.states();
    let places = game.choices_below(states) as usize + states as usize;
    let entries = vec![in alloc; None; places]?;
    Ok(entries)
}
