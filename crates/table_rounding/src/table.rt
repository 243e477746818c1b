//! This module has a table of units.

ghost use Rattle.std.specs.Prelude.{◌≡◌, ◌<◌, ◌≤◌, IfOk, All, length, min, replicate, slice_index, slice_set};
ghost use Rattle.game_model.specs.Limits.{unit};

use game_model::UNIT;
use game_outside::OutOfMemory;
use std::alloc::Global;
use std::marker::Model;

/// A table gives each state a value in units, from 0 to 10^15.
#[derive(Drop)]
pub struct UnitTable {
    entries: Vec<u64>,
}

impl Model for UnitTable {
    ghost use Rattle.std.specs.Prelude.{◌≤◌, ℕ, List, All};
    ghost use Rattle.game_model.specs.Limits.{unit};

    ghost Value = { List ℕ };

    ghost view = { λ t. t.entries.items };

    ghost invariant = { λ t. All (λ v. v ≤ unit) t.entries.items };
}

impl UnitTable {
    /// Returns the table whose entries are all 0.
    pub fn zeros(alloc: Global, states: u32) -> Result<UnitTable, OutOfMemory>
        ensures { IfOk result (λ t. t ≡ replicate states 0) }
    {
        let entries = vec![in alloc; 0u64; states as usize]?;
        Ok(UnitTable { entries })
    }

    /// Tells a proof what holds for every table. It does nothing.
    pub fn invariant(&self)
        ensures { All (λ v. v ≤ unit) self.now }
    {
        let _ = &self.entries;
    }

    /// Returns the entries.
    pub fn entries(&self) -> &[u64]
        ensures { result.now ≡ self.now }
    {
        &self.entries
    }

    /// Returns the entry of a state.
    pub fn get(&self, state: u32) -> u64
        requires { state < length self.now }
        ensures value { result ≡ slice_index self.now state }
        ensures small { result ≤ unit }
    {
        self.entries[state as usize]
    }

    /// Gives a state this value, or the unit if the value is more.
    pub fn set(&mut self, state: u32, value: u64)
        requires { state < length self.old }
        ensures { self.new ≡ slice_set self.old state (min value unit) }
    {
        self.entries[state as usize] = value.min(UNIT);
    }

    /// Returns the list of the entries.
    pub fn into_entries(self) -> Vec<u64>
        ensures list { result.items ≡ self }
        ensures units { All (λ v. v ≤ unit) result.items }
    {
        self.entries
    }
}
