//! Labels are names, each with the states that have it.

ghost use Rattle.std.specs.Prelude.{◌≡◌, ◌<◌, ◌≤◌, ◌^◌, IfOk, length};
ghost use Rattle.label_lines.specs.Labels.{marked_from};

use crate::state_set::StateSet;
use game_outside::OutOfMemory;
use indexmap::IndexMap;
use std::alloc::Global;
use std::marker::Model;

/// Holds the labels of a model in the order of their header, and the states at which each holds. Contracts see them as
/// a `Labelling`.
#[derive(Drop)]
pub struct Labels {
    states: u32,
    names: IndexMap<Vec<u8>, u64>,
    sets: Vec<StateSet>,
}

impl Model for Labels {
    ghost use Rattle.label_lines.specs.Labels.{Labelling};
    ghost use Rattle.label_lines.specs.Named.{labels_named};
    ghost use Rattle.label_reader.specs.Named.{AreNamed};

    ghost Value = { Labelling };

    ghost view = { λ l. record { states = l.states; labels = labels_named l.names.entries l.sets.items } };

    ghost invariant = { λ l. AreNamed l.states l.names.entries l.sets.items };
}

impl Labels {
    ghost use Rattle.label_lines.specs.Named.{labels_named};
    ghost use Rattle.label_reader.specs.Named.{AreNamed};
    ghost use Rattle.label_lines.specs.Labels.{is_known, marks_of, states_with, IsLabelling};

    /// Makes the labels with these names, and the states of each.
    pub(crate) fn new(states: u32, names: IndexMap<Vec<u8>, u64>, sets: Vec<StateSet>) -> Labels
        requires { AreNamed states names.entries sets.items }
        ensures { result ≡ record { states = states; labels = labels_named names.entries sets.items } }
    {
        Labels {
            states,
            names,
            sets,
        }
    }

    /// Shows what every labelling keeps: each label has a mark for each state.
    pub fn invariant(&self)
        ensures { IsLabelling self.now }
    {
        let _ = &self.sets;
    }

    /// Returns the marks of the label with this name, or none if there is no such label.
    pub fn marks(&self, name: &[u8]) -> &[bool]
        ensures marks { result.now ≡ marks_of self.now.labels name.now }
        ensures short { length result.now < 2 ^ 32 }
    {
        match self.names.get_index_of(name) {
            Some(place) => self.sets[place].marks(),
            None => &[],
        }
    }

    /// Returns whether there is a label with this name.
    pub fn knows(&self, name: &[u8]) -> bool
        ensures { result ≡ is_known self.now name.now }
    {
        self.names.contains_key(name)
    }

    /// Returns the states at which the label with this name holds, in rising order, or none if there is no such label.
    pub fn states_of(&self, alloc: Global, name: &[u8]) -> Result<Vec<u32>, OutOfMemory>
        ensures { IfOk result (λ v. v.items ≡ states_with self.now name.now) }
    {
        marked(alloc, self.marks(name))
    }
}

// Returns the states that are marked, in rising order.
fn marked(alloc: Global, marks: &[bool]) -> Result<Vec<u32>, OutOfMemory>
    requires { length marks.now < 2 ^ 32 }
    ensures { IfOk result (λ v. v.items ≡ marked_from 0 marks.now) }
{
    let mut states = Vec::new(alloc);
    for (state, mark) in marks.iter().enumerate() {
        if *mark && states.push(state as u32).is_err() {
            return Err(OutOfMemory {});
        }
    }
    Ok(states)
}
