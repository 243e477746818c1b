//! A plan is a certificate in memory.

ghost use Rattle.std.specs.Prelude.{◌≡◌, ◌+◌, ◌++◌, ◌∷◌, [], length, IfOk, OnOk};
ghost use Rattle.plan_text.specs.Entries.{IsSmall};

use crate::entry::StateLine;
use std::alloc::{AllocError, Global};

/// A certificate of a question has for each state both bounds in units, the choices of both sides, and a rank.
#[derive(Drop)]
pub struct Plan {
    /// Each state has a lower bound, in units.
    pub lower: Vec<u64>,
    /// A state may have a choice of the maximiser.
    pub choices: Vec<Option<u32>>,
    /// Each state has a rank.
    pub ranks: Vec<u32>,
    /// Each state has an upper bound, in units.
    pub upper: Vec<u64>,
    /// A state may have a choice of the minimiser.
    pub replies: Vec<Option<u32>>,
}

impl Plan {
    ghost use Rattle.plan_text.specs.Entries.{HasStates, IsInRange, entries_of};

    /// Makes a certificate of no state, with room for this many.
    pub(crate) fn with_room(alloc: Global, states: u32) -> Result<Plan, AllocError>
        ensures { IfOk result (λ plan. HasStates plan 0) }
    {
        let room = states as usize;
        Ok(Plan {
            lower: Vec::with_capacity(alloc, room)?,
            choices: Vec::with_capacity(alloc, room)?,
            ranks: Vec::with_capacity(alloc, room)?,
            upper: Vec::with_capacity(alloc, room)?,
            replies: Vec::with_capacity(alloc, room)?,
        })
    }

    /// Adds what a line says of the next state.
    pub(crate) fn push(&mut self, entry: StateLine) -> Result<(), AllocError>
        requires lists { HasStates self.old (length self.old.lower.items) }
        requires range { IsInRange entry }
        ensures lists { OnOk result (HasStates self.new (length self.old.lower.items + 1)) }
        ensures entries { OnOk result (entries_of self.new ≡ entries_of self.old ++ entry ∷ []) }
    {
        self.lower.push(entry.lower)?;
        self.choices.push(narrowed(entry.choice))?;
        self.ranks.push(entry.rank as u32)?;
        self.upper.push(entry.upper)?;
        self.replies.push(narrowed(entry.reply))?;
        Ok(())
    }
}

/// Narrows a choice that is within its limit.
pub fn narrowed(choice: Option<u64>) -> Option<u32>
    requires { IsSmall choice }
    ensures { result ≡ choice }
{
    match choice {
        None => None,
        Some(choice) => Some(choice as u32),
    }
}
