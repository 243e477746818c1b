//! This module reads the lines of a label file behind its header.

ghost use Rattle.std.specs.Prelude.{◌≡◌, ◌<◌, false, Some, length, replicate, slice_index_or, All, IfOk, OnOk, ℕ};
ghost use Rattle.text_lines.specs.Text.{fields_of};
ghost use Rattle.label_lines.specs.declared.kind.FileKind.TheVariants.{LabelFile};
ghost use Rattle.label_reader.specs.inside.Behind.{AnswersBehind};
ghost use Rattle.label_lines.specs.Lines.{known_fields};
ghost use Rattle.label_reader.specs.inside.Marked.{with_mark, with_marks, AreMarked};
ghost use Rattle.label_lines.specs.Placed.{AreSingle};
ghost use Rattle.label_lines.specs.Texts.{labelling, is_said};

use crate::labels::Labels;
use crate::state_set::StateSet;
use label_lines::{
    BehindHeader, FileKind, Header, LabCause, LabFault, fault_of_numbers, read_state,
};
use std::alloc::{AllocError, Global};
use text_lines::{LineReader, first_field};

/// Holds a set of states for each label of a header: those of which the lines so far say its index.
#[derive(Drop)]
pub struct LabelSets {
    states: u32,
    header: Header,
    sets: Vec<StateSet>,
    ghost single: { AreSingle header },
    ghost count: { length sets.items ≡ length header },
    ghost lengths: { All (λ marks. length marks ≡ states) sets.items },
}

impl BehindHeader for LabelSets {
    ghost kind = { LabelFile };

    ghost make = { labelling };

    fn kind() -> FileKind {
        FileKind::LabelFile
    }

    fn new(alloc: Global, header: Header, states: u32) -> Result<LabelSets, AllocError> {
        let sets = empty_sets(alloc, header.len(), states)?;
        Ok(LabelSets {
            states,
            header,
            sets,
        })
    }
}

impl LineReader for LabelSets {
    type Made = Labels;

    type Fault = LabFault;

    ghost answers = { λ s number lines answer. AnswersBehind LabelFile s.states (labelling s.states) s.header
        (λ read. AreMarked s.states s.header (is_said read) s.sets.items) number lines answer };

    fn take(&mut self, number: u32, line: &[u8]) -> Result<(), LabFault> {
        match read_state(self.states, line) {
            Err(cause) => Err(LabFault::at(number, cause)),
            Ok((state, numbers)) => {
                match mark_all(self.sets.as_mut_slice(), &self.header, state, numbers) {
                    Err(cause) => Err(LabFault::at(number, cause)),
                    Ok(()) => Ok(()),
                }
            }
        }
    }

    fn blank(&self, number: u32) -> LabFault {
        LabFault::at(number, LabCause::BadField)
    }

    fn finish(self) -> Result<Labels, LabFault> {
        Ok(Labels::new(self.states, self.header.into_names(), self.sets))
    }
}

// Makes `count` empty sets of states.
fn empty_sets(alloc: Global, count: usize, states: u32) -> Result<Vec<StateSet>, AllocError>
    ensures { IfOk result (λ sets. sets.items ≡ replicate count (replicate states false)) }
{
    let mut sets = Vec::new(alloc);
    for _place in 0..count {
        sets.push(StateSet::empty(alloc, states)?)?;
    }
    Ok(sets)
}

// Marks a state in the set of each index of a line, or gives the first fault of the indices.
fn mark_all(
    sets: &mut [StateSet],
    header: &Header,
    state: u32,
    numbers: &[u8],
) -> Result<(), LabCause>
    requires count { length sets.old ≡ length header.now }
    requires state { All (λ marks. state < length marks) sets.old }
    ensures known { result ≡ known_fields header.now (fields_of numbers.now) }
    ensures marks { OnOk result (sets.new ≡ with_marks header.now state sets.old (fields_of numbers.now)) }
    ensures lengths { (n : ℕ) → All (λ marks. length marks ≡ n) sets.old → All (λ marks. length marks ≡ n) sets.new }
{
    let mut rest = numbers;
    while let Some((field, after)) = first_field(rest) {
        let Some(place) = header.place(field) else {
            return Err(fault_of_numbers(rest, LabCause::UnknownIndex));
        };
        mark(sets, place, state);
        rest = after;
    }
    Ok(())
}

// Marks a state in one set.
fn mark(sets: &mut [StateSet], place: u32, state: u32)
    requires place { place < length sets.old }
    requires state { All (λ marks. state < length marks) sets.old }
    ensures marks { sets.new ≡ with_mark state (Some place) sets.old }
    ensures states { All (λ marks. state < length marks) sets.new }
    ensures lengths { (n : ℕ) → All (λ marks. length marks ≡ n) sets.old → All (λ marks. length marks ≡ n) sets.new }
{
    sets[place as usize].add(state);
}
