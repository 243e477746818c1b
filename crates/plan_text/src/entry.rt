//! The line of a state has six fields: the state's number, the lower bound, the maximiser's choice, the rank, the upper
//! bound and the minimiser's choice.

ghost use Rattle.std.specs.Prelude.{◌≡◌, option_map, IfOk};
ghost use Rattle.text_lines.specs.Text.{fields_of, saturated};
ghost use Rattle.plan_text.specs.Entries.{IsInRange};
ghost use Rattle.plan_text.specs.Said.{line_said, entry_in, units_of, choice_in, is_small, is_in_range};
ghost use Rattle.plan_text.specs.Parts.{saturated_entry};

use crate::fault::PlanCause;
use crate::version::Version;
use game_model::UNIT;
use std::marker::Model;
use text_lines::{first_field, whole};

/// No choice has a greater number.
pub const GREATEST_CHOICE: u64 = 16_383;

/// A line says this of its state. Contracts see it as an entry.
#[derive(Drop)]
pub struct StateLine {
    /// The state has this lower bound, in units.
    pub lower: u64,
    /// The maximiser may have a choice.
    pub choice: Option<u64>,
    /// The state has this rank.
    pub rank: u64,
    /// The state has this upper bound, in units.
    pub upper: u64,
    /// The minimiser may have a choice.
    pub reply: Option<u64>,
}

impl Model for StateLine {
    ghost use Rattle.plan_text.specs.Entries.{Entry};

    ghost Value = { Entry };

    ghost view = { λ l. record {
      lower = l.lower;
      choice = l.choice;
      rank = l.rank;
      upper = l.upper;
      reply = l.reply;
    } };
}

impl StateLine {
    // Returns what a line spells of this state, if it has the right form.
    fn spelled(version: Version, state: u32, line: &[u8]) -> Option<StateLine>
        ensures { result ≡ option_map (saturated_entry (λ value. value)) (entry_in version state (fields_of line.now)) }
    {
        let (number, rest) = first_field(line)?;
        let (lower, rest) = first_field(rest)?;
        let (choice, rest) = first_field(rest)?;
        let (rank, rest) = first_field(rest)?;
        let (upper, rest) = first_field(rest)?;
        let (reply, rest) = first_field(rest)?;
        if first_field(rest).is_some() || whole(number)? != u64::from(state) {
            return None;
        }
        Some(StateLine {
            lower: units_in(version, lower)?,
            choice: choice_in(choice)?,
            rank: whole(rank)?,
            upper: units_in(version, upper)?,
            reply: choice_in(reply)?,
        })
    }

    // Returns whether the bounds are values, and the choices and the rank are within their limits.
    fn is_in_range(&self) -> bool
        ensures { result ≡ is_in_range self.now }
    {
        self.lower <= UNIT
            && self.upper <= UNIT
            && is_small(self.choice)
            && is_small(self.reply)
            && self.rank <= u64::from(u32::MAX)
    }

    /// Returns what a line says of this state, or its fault.
    pub fn read(version: Version, state: u32, line: &[u8]) -> Result<StateLine, PlanCause>
        ensures said { result ≡ line_said version state line.now }
        ensures range { IfOk result IsInRange }
    {
        let Some(entry) = StateLine::spelled(version, state, line) else {
            return Err(PlanCause::BadLine);
        };
        if entry.is_in_range() {
            Ok(entry)
        } else {
            Err(PlanCause::NumberOutOfRange)
        }
    }
}

// Returns the units of a value: a digit, a point and the decimals of the version.
fn units_in(version: Version, field: &[u8]) -> Option<u64>
    ensures { result ≡ units_of version field.now }
{
    let [ones, b'.', digits @ ..] = field else {
        return None;
    };
    if !ones.is_ascii_digit() || digits.len() != version.decimals() {
        return None;
    }
    let decimals = whole(digits)? * version.units_of_last_digit();
    Some(u64::from(*ones - b'0') * UNIT + decimals)
}

/// Reads a choice, or `-` for none. A number that is too great for 64 bits is the greatest one of 64 bits.
pub fn choice_in(field: &[u8]) -> Option<Option<u64>>
    ensures { result ≡ option_map (option_map saturated) (choice_in field.now) }
{
    match field {
        [b'-'] => Some(None),
        _ => Some(Some(whole(field)?)),
    }
}

/// Returns whether the number of a choice, if one is given, is at most the greatest.
pub fn is_small(choice: Option<u64>) -> bool
    ensures { result ≡ is_small choice }
{
    match choice {
        None => true,
        Some(choice) => choice <= GREATEST_CHOICE,
    }
}
