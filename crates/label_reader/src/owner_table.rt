//! This module reads the lines of an owner file behind its header.

ghost use Rattle.std.specs.Prelude.{◌≡◌, ◌<◌, Some, None, length, slice_index_or, slice_set, unwrap_or, All};
ghost use Rattle.text_lines.specs.Text.{fields_of};
ghost use Rattle.label_lines.specs.declared.kind.FileKind.TheVariants.{OwnerFile};
ghost use Rattle.label_reader.specs.inside.Behind.{AnswersBehind};
ghost use Rattle.label_reader.specs.inside.Owned.{owner_behind, AreRead};
ghost use Rattle.label_lines.specs.Texts.{ownership};

use crate::owners::{Owners, nobody};
use label_lines::{
    BehindHeader, FileKind, Header, LabCause, LabFault, fault_of_numbers, read_state,
};
use std::alloc::{AllocError, Global};
use text_lines::{LineReader, first_field};

/// Holds the player who owns each state, as the lines so far say.
#[derive(Drop)]
pub struct OwnerTable {
    states: u32,
    header: Header,
    owners: Vec<Option<u32>>,
    ghost count: { length owners.items ≡ states },
    ghost known: { All (λ owner. unwrap_or owner 0 < length header) owners.items },
}

impl BehindHeader for OwnerTable {
    ghost kind = { OwnerFile };

    ghost make = { ownership };

    fn kind() -> FileKind {
        FileKind::OwnerFile
    }

    fn new(alloc: Global, header: Header, states: u32) -> Result<OwnerTable, AllocError> {
        let owners = nobody(alloc, states)?;
        Ok(OwnerTable {
            states,
            header,
            owners,
        })
    }
}

impl LineReader for OwnerTable {
    type Made = Owners;

    type Fault = LabFault;

    ghost answers = { λ t number lines answer. AnswersBehind OwnerFile t.states (ownership t.states) t.header
        (λ read. AreRead t.states t.header read t.owners.items) number lines answer };

    fn take(&mut self, number: u32, line: &[u8]) -> Result<(), LabFault> {
        match read_state(self.states, line) {
            Err(cause) => Err(LabFault::at(number, cause)),
            Ok((state, numbers)) => {
                match owner_behind(self.owners[state as usize], &self.header, state, numbers) {
                    Err(cause) => Err(LabFault::at(number, cause)),
                    Ok(owner) => {
                        self.owners[state as usize] = owner;
                        Ok(())
                    }
                }
            }
        }
    }

    fn blank(&self, number: u32) -> LabFault {
        LabFault::at(number, LabCause::BadField)
    }

    fn finish(self) -> Result<Owners, LabFault> {
        Ok(Owners::new(self.header.into_names(), self.owners))
    }
}

// Returns the owner of a state behind a line with these indices: the one that is named already, or else the first that
// the line names. Otherwise it returns the first fault of the indices. That they name another owner comes last.
fn owner_behind(
    named: Option<u32>,
    header: &Header,
    state: u32,
    numbers: &[u8],
) -> Result<Option<u32>, LabCause>
    ensures { result ≡ owner_behind header.now state named (fields_of numbers.now) }
{
    let mut owner = named;
    let mut agree = true;
    let mut rest = numbers;
    while let Some((field, after)) = first_field(rest) {
        let Some(place) = header.place(field) else {
            return Err(fault_of_numbers(rest, LabCause::UnknownIndex));
        };
        let first = owner.unwrap_or(place);
        agree = agree && place == first;
        owner = Some(first);
        rest = after;
    }
    if agree {
        Ok(owner)
    } else {
        Err(LabCause::TwoOwners { state })
    }
}
