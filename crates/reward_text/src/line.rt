//! The line of a state has six fields: the state's number, the lower value, the maximiser's choice, the rank, the upper
//! value and the minimiser's reply.

ghost use Rattle.std.specs.Prelude.{◌≡◌, ◌≤◌, option_map, IfOk};
ghost use Rattle.text_lines.specs.Text.{fields_of, saturated};
ghost use Rattle.plan_text.specs.Fixed.{unit_digits};
ghost use Rattle.plan_text.specs.Said.{entry_in_by, is_in_range_by};
ghost use Rattle.plan_text.specs.Parts.{saturated_entry};
ghost use Rattle.reward_text.specs.Values.{value_in, is_value};
ghost use Rattle.reward_text.specs.Entries.{IsRewardEntry};
ghost use Rattle.reward_text.specs.Said.{are_bounds, reward_entry_in, reward_line_said};

use crate::value::{is_value, value_in};
use plan_text::{PlanCause, choice_in, is_small};
use std::marker::Model;
use text_lines::{first_field, whole};

/// A line says this of its state. Contracts see it as an entry.
#[derive(Drop)]
pub struct RewardLine {
    /// The state has this lower value, in units, or an infinite one.
    pub lower: Option<u64>,
    /// The maximiser may have a choice.
    pub choice: Option<u64>,
    /// The state has this rank.
    pub rank: u64,
    /// The state has this upper value, in units, or none is claimed.
    pub upper: Option<u64>,
    /// The minimiser may have a reply.
    pub reply: Option<u64>,
}

impl Model for RewardLine {
    ghost use Rattle.reward_text.specs.Entries.{RewardEntry};

    ghost Value = { RewardEntry };

    ghost view = { λ l. record {
      lower = l.lower;
      choice = l.choice;
      rank = l.rank;
      upper = l.upper;
      reply = l.reply;
    } };
}

impl RewardLine {
    // Returns what a line spells of this state, if its six fields have the right form.
    fn spelled(places: u32, state: u32, line: &[u8]) -> Option<RewardLine>
        requires { places ≤ unit_digits }
        ensures { result ≡ option_map (saturated_entry (option_map saturated))
            (entry_in_by (value_in places) state (fields_of line.now)) }
    {
        let (number, rest) = first_field(line)?;
        let (lower, rest) = first_field(rest)?;
        let (choice, rest) = first_field(rest)?;
        let (rank, rest) = first_field(rest)?;
        let (upper, rest) = first_field(rest)?;
        let (reply, rest) = first_field(rest)?;
        if first_field(rest).is_some() || whole(number)? != u64::from(state) {
            return None;
        }
        Some(RewardLine {
            lower: value_in(places, lower)?,
            choice: choice_in(choice)?,
            rank: whole(rank)?,
            upper: value_in(places, upper)?,
            reply: choice_in(reply)?,
        })
    }

    // Returns what a line spells of this state, if its bounds go together too.
    fn stated(places: u32, state: u32, line: &[u8]) -> Option<RewardLine>
        requires { places ≤ unit_digits }
        ensures { result ≡ option_map (saturated_entry (option_map saturated))
            (reward_entry_in places state (fields_of line.now)) }
    {
        let Some(entry) = RewardLine::spelled(places, state, line) else {
            return None;
        };
        if entry.has_bounds() {
            Some(entry)
        } else {
            None
        }
    }

    // Returns whether there is no number above an infinite value.
    fn has_bounds(&self) -> bool
        ensures { result ≡ are_bounds self.now.lower self.now.upper }
    {
        self.lower.is_some() || self.upper.is_none()
    }

    // Returns whether the numbers are within their limits.
    fn is_in_range(&self) -> bool
        ensures { result ≡ is_in_range_by is_value self.now }
    {
        is_value(self.lower)
            && is_value(self.upper)
            && is_small(self.choice)
            && is_small(self.reply)
            && self.rank <= u64::from(u32::MAX)
    }

    /// Returns what a line says of this state, or its fault.
    pub fn read(places: u32, state: u32, line: &[u8]) -> Result<RewardLine, PlanCause>
        requires { places ≤ unit_digits }
        ensures said { result ≡ reward_line_said places state line.now }
        ensures range { IfOk result IsRewardEntry }
    {
        let Some(entry) = RewardLine::stated(places, state, line) else {
            return Err(PlanCause::BadLine);
        };
        if entry.is_in_range() {
            Ok(entry)
        } else {
            Err(PlanCause::NumberOutOfRange)
        }
    }
}
