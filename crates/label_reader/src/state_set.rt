//! A set of states is a mark for each of them.

ghost use Rattle.std.specs.Prelude.{◌≡◌, ◌<◌, ◌≤◌, ◌^◌, Bool, true, false, List, length, replicate, slice_index_or, slice_set, IfOk};

use std::alloc::{AllocError, Global};
use std::marker::Model;

/// Contracts see a set of states as the list of its marks. A mark takes a byte.
#[derive(Drop)]
pub struct StateSet {
    marks: Vec<bool>,
}

impl Model for StateSet {
    ghost Value = { List Bool };

    ghost view = { λ s. s.marks.items };
}

impl StateSet {
    /// Makes the empty set of `states` states.
    pub fn empty(alloc: Global, states: u32) -> Result<StateSet, AllocError>
        ensures { IfOk result (λ set. set ≡ replicate states false) }
    {
        let marks = vec![in alloc; false; states as usize]?;
        Ok(StateSet { marks })
    }

    /// Adds a state.
    pub fn add(&mut self, state: u32)
        requires { state < length self.old }
        ensures { self.new ≡ slice_set self.old state true }
    {
        self.marks[state as usize] = true;
    }

    /// Returns the marks.
    pub fn marks(&self) -> &[bool]
        ensures { result.now ≡ self.now }
    {
        &self.marks
    }
}
