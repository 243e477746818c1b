//! A plan of rewards is a certificate of rewards in memory.

ghost use Rattle.std.specs.Prelude.{◌≡◌, ◌+◌, ◌++◌, ◌∷◌, [], length, IfOk, OnOk};
ghost use Rattle.reward_text.specs.inside.Read.{is_number, units_or_zero};

use crate::line::RewardLine;
use plan_text::narrowed;
use std::alloc::{AllocError, Global};

/// A certificate of rewards has for each state both values in units, the choices of both sides, and a rank. A unit is
/// 10^-places of reward.
#[derive(Drop)]
pub struct RewardPlan {
    /// A unit has so many places.
    pub places: u32,
    /// A state has a number as lower value, or an infinite one.
    pub finite: Vec<bool>,
    /// Each state has a lower value, in units. It is 0 where the value is infinite.
    pub lower: Vec<u64>,
    /// A state may have a choice of the maximiser.
    pub choices: Vec<Option<u32>>,
    /// Each state has a rank.
    pub ranks: Vec<u32>,
    /// A state has a number as upper value, or none is claimed.
    pub bounded: Vec<bool>,
    /// Each state has an upper value, in units. It is 0 where none is claimed.
    pub upper: Vec<u64>,
    /// A state may have a reply of the minimiser.
    pub replies: Vec<Option<u32>>,
}

impl RewardPlan {
    ghost use Rattle.reward_text.specs.Entries.{HasRewardStates, HasUnits, IsRewardEntry, reward_entries_of};

    /// Makes a certificate of no state, with room for this many.
    pub(crate) fn with_room(
        alloc: Global,
        places: u32,
        states: u32,
    ) -> Result<RewardPlan, AllocError>
        ensures lists { IfOk result (λ plan. HasRewardStates plan 0) }
        ensures places { IfOk result (λ plan. plan.places ≡ places) }
        ensures units { IfOk result HasUnits }
    {
        let room = states as usize;
        Ok(RewardPlan {
            places,
            finite: Vec::with_capacity(alloc, room)?,
            lower: Vec::with_capacity(alloc, room)?,
            choices: Vec::with_capacity(alloc, room)?,
            ranks: Vec::with_capacity(alloc, room)?,
            bounded: Vec::with_capacity(alloc, room)?,
            upper: Vec::with_capacity(alloc, room)?,
            replies: Vec::with_capacity(alloc, room)?,
        })
    }

    /// Adds what a line says of the next state.
    pub(crate) fn push(&mut self, entry: RewardLine) -> Result<(), AllocError>
        requires lists { HasRewardStates self.old (length self.old.lower.items) }
        requires units { HasUnits self.old }
        requires range { IsRewardEntry entry }
        ensures lists { OnOk result (HasRewardStates self.new (length self.old.lower.items + 1)) }
        ensures places { OnOk result (self.new.places ≡ self.old.places) }
        ensures units { OnOk result (HasUnits self.new) }
        ensures entries { OnOk result (reward_entries_of self.new ≡ reward_entries_of self.old ++ entry ∷ []) }
    {
        self.finite.push(is_number(entry.lower))?;
        self.lower.push(units_or_zero(entry.lower))?;
        self.choices.push(narrowed(entry.choice))?;
        self.ranks.push(entry.rank as u32)?;
        self.bounded.push(is_number(entry.upper))?;
        self.upper.push(units_or_zero(entry.upper))?;
        self.replies.push(narrowed(entry.reply))?;
        Ok(())
    }
}

fn is_number(value: Option<u64>) -> bool
    ensures { result ≡ is_number value }
{
    value.is_some()
}

// Returns the units of a value, or 0 where it is no number.
fn units_or_zero(value: Option<u64>) -> u64
    ensures { result ≡ units_or_zero value }
{
    match value {
        Some(units) => units,
        None => 0,
    }
}
