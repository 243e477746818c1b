//! These are laws of files of rewards. Each function does nothing: its contract is the law.

ghost use Rattle.std.specs.Prelude.{◌≡◌, ◌↔◌, ℕ, List, Option, Ok};
ghost use Rattle.fractions.specs.Fraction.{Fraction};
ghost use Rattle.game_model.specs.Game.{Distribution};
ghost use Rattle.rewards_reader.specs.declared.line.RewardLine.{RewardLine};
ghost use Rattle.rewards_reader.specs.Amounts.{DenotesAmount, amount_said};
ghost use Rattle.rewards_reader.specs.Denotes.{DenotesLines, DenotesRewards};
ghost use Rattle.rewards_reader.specs.Limits.{most_lines, most_reward};
ghost use Rattle.rewards_reader.specs.Rewards.{GivesRewards};
ghost use Rattle.rewards_reader.specs.Texts.{lines_said};

use crate::limits::{MOST_LINES, MOST_REWARD};

/// The limits of the code are those of the definitions.
pub fn limits()
    ensures lines { MOST_LINES ≡ most_lines }
    ensures reward { MOST_REWARD ≡ most_reward }
{}

/// The reward that is said of a text by cases is the one that it denotes.
pub fn amounts_are_those_that_a_text_denotes()
    ensures { (text : List ℕ) (f : Fraction) → (amount_said text ≡ Ok f) ↔ DenotesAmount text f }
{}

/// The lines that are said of a text by cases are those that it denotes.
pub fn lines_are_those_that_a_text_denotes()
    ensures { (game : List (List Distribution)) (text : List ℕ) (lines : List RewardLine) →
        (lines_said game text ≡ Ok lines) ↔ DenotesLines game text lines }
{}

/// The rewards that are said of a text by cases are those that it denotes.
pub fn rewards_are_those_that_a_text_denotes()
    ensures { (game : List (List Distribution)) (text : List ℕ) (table : List (Option Fraction)) →
        GivesRewards game (lines_said game text) table ↔ DenotesRewards game text table }
{}
