//! This module reads and judges the texts of a run, one after another.

ghost use Rattle.std.specs.Prelude.{◌≡◌, ◌≤◌, IfOk, option_map, length};
ghost use Rattle.text_lines.specs.Limits.{most_bytes};
ghost use Rattle.inputs.specs.Sources.{held_own};
ghost use Rattle.inputs.specs.Loading.{LoadingLeaves, LoadsText, EndsCaused, fault_of};
ghost use Rattle.inputs.specs.Texts.{text_said, game_said, labels_said, owners_said};

use formula_sets::PoseFault;
use game_model::Game;
use game_outside::{FileEnd, OutOfMemory, ReadEnd, Shelf, read_all};
use label_reader::{Labels, Owners, read_labels_from, read_owners_from};
use output::{Refusal, Text};
use std::alloc::Global;
use text_lines::MOST_BYTES;
use tra_reader::read_tra_from;

/// Loading ends in one of these ways if it gives nothing.
#[derive(Drop)]
pub enum End {
    OutOfMemory,
    ReadFault,
    Refused(Refusal),
}

impl From<OutOfMemory> for End {
    ghost use Rattle.std.specs.Prelude.{◌≡◌};
    ghost use Rattle.inputs.specs.declared.load.End.TheVariants.{OutOfMemory};

    ghost from_gives = { λ _ end. end ≡ OutOfMemory };

    fn from(_: OutOfMemory) -> End {
        End::OutOfMemory
    }
}

impl From<PoseFault> for End {
    ghost use Rattle.std.specs.Prelude.{◌≡◌};
    ghost use Rattle.inputs.specs.Loading.{end_of_question};

    ghost from_gives = { λ fault end. end ≡ end_of_question fault };

    fn from(fault: PoseFault) -> End {
        match fault {
            PoseFault::OutOfMemory => End::OutOfMemory,
            _ => End::Refused(Refusal::OfQuestion(fault)),
        }
    }
}

/// Reads the bytes of a text.
pub fn load_text<H: Shelf>(
    alloc: Global,
    shelf: &mut H,
    text: Text,
    name: &str,
) -> Result<Vec<u8>, End>
    ensures says { LoadsText (H.held shelf.old) (H.steady shelf.old) (λ held. held name.now) (λ v. v.items) result
        (text_said text) }
    ensures within { IfOk result (λ v. length v.items ≤ most_bytes) }
    ensures shelf { LoadingLeaves H.held H.steady H.faults H.taken shelf.old shelf.new result }
    ensures caused { EndsCaused result }
{
    match read_all(alloc, shelf, name, MOST_BYTES as u64) {
        Ok(bytes) => Ok(bytes),
        Err(ReadEnd::OutOfMemory) => Err(End::OutOfMemory),
        Err(ReadEnd::ReadFault) => Err(End::ReadFault),
        Err(ReadEnd::TooLong) => Err(End::Refused(Refusal::TooLong(text))),
    }
}

// Returns the fault for which a reader refuses a file. If the file is not read to its end, it returns how loading ends.
fn fault_of<F: Drop>(text: Text, end: FileEnd<F>) -> Result<F, End>
    ensures { result ≡ fault_of text end }
{
    match end {
        FileEnd::OutOfMemory => Err(End::OutOfMemory),
        FileEnd::ReadFault => Err(End::ReadFault),
        FileEnd::TooLong => Err(End::Refused(Refusal::TooLong(text))),
        FileEnd::Refused(fault) => Ok(fault),
    }
}

/// Reads the game of the transition file.
pub fn load_game<H: Shelf>(alloc: Global, shelf: &mut H, name: &str) -> Result<Game, End>
    ensures says { LoadsText (H.held shelf.old) (H.steady shelf.old) (λ held. held name.now) (λ x. x) result game_said }
    ensures shelf { LoadingLeaves H.held H.steady H.faults H.taken shelf.old shelf.new result }
    ensures caused { EndsCaused result }
{
    match read_tra_from(alloc, shelf, name, MOST_BYTES as u64) {
        Ok(game) => Ok(game),
        Err(end) => {
            let fault = fault_of(Text::Tra, end)?;
            Err(End::Refused(Refusal::OfTra(fault)))
        }
    }
}

/// Reads the labels of the label file.
pub fn load_labels<H: Shelf>(
    alloc: Global,
    shelf: &mut H,
    name: &str,
    states: u32,
) -> Result<Labels, End>
    ensures says { LoadsText (H.held shelf.old) (H.steady shelf.old) (λ held. held name.now) (λ x. x) result
        (λ source. labels_said source states) }
    ensures shelf { LoadingLeaves H.held H.steady H.faults H.taken shelf.old shelf.new result }
    ensures caused { EndsCaused result }
    ensures sizes { IfOk result (λ labels. labels.states ≡ states) }
{
    match read_labels_from(alloc, shelf, name, MOST_BYTES as u64, states) {
        Ok(labels) => Ok(labels),
        Err(end) => {
            let fault = fault_of(Text::Lab, end)?;
            Err(End::Refused(Refusal::OfLab(fault)))
        }
    }
}

/// Reads the owners of the owner file.
pub fn load_owner_file<H: Shelf>(
    alloc: Global,
    shelf: &mut H,
    name: &str,
    states: u32,
) -> Result<Owners, End>
    ensures says { LoadsText (H.held shelf.old) (H.steady shelf.old) (λ held. held name.now) (λ x. x) result
        (λ source. owners_said (Some name.now) source states) }
    ensures shelf { LoadingLeaves H.held H.steady H.faults H.taken shelf.old shelf.new result }
    ensures caused { EndsCaused result }
    ensures sizes { IfOk result (λ owners. length owners.owners ≡ states) }
{
    match read_owners_from(alloc, shelf, name, MOST_BYTES as u64, states) {
        Ok(owners) => Ok(owners),
        Err(end) => {
            let fault = fault_of(Text::Own, end)?;
            Err(End::Refused(Refusal::OfOwn(fault)))
        }
    }
}

/// Reads the owners of the owner file if one is named. Else one player owns all states.
pub fn load_owners<H: Shelf>(
    alloc: Global,
    shelf: &mut H,
    own: Option<&str>,
    states: u32,
) -> Result<Owners, End>
    requires { H.taken shelf.old ≤ most_bytes }
    ensures says { LoadsText (H.held shelf.old) (H.steady shelf.old)
        (held_own (option_map (λ file. file.now) own.entry)) (λ x. x) result
        (λ source. owners_said (option_map (λ file. file.now) own.entry) source states) }
    ensures shelf { LoadingLeaves H.held H.steady H.faults H.taken shelf.old shelf.new result }
    ensures caused { EndsCaused result }
    ensures sizes { IfOk result (λ owners. length owners.owners ≡ states) }
{
    match own {
        None => Ok(Owners::single(alloc, states)?),
        Some(name) => load_owner_file(alloc, shelf, name, states),
    }
}
