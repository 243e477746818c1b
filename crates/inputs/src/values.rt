//! This module reads values to begin with, from a file of any tool.

ghost use Rattle.std.specs.Prelude.{◌≡◌, ◌≤◌, None, Some, Err, IfOk, IfSome, IsErrOf, is_some, length, option_map, true};
ghost use Rattle.text_lines.specs.Limits.{most_bytes};
ghost use Rattle.values_reader.specs.Faults.{fault_of};
ghost use Rattle.values_reader.specs.declared.fault.ValuesFault.{ValuesFault};
ghost use Rattle.output.specs.declared.refusal.Refusal.{Refusal};
ghost use Rattle.inputs.specs.Asks.{GivenTextWith};
ghost use Rattle.inputs.specs.Sources.{SourceWith, IfKnown};
ghost use Rattle.inputs.specs.Loading.{IsTooLong, LoadingLeaves, EndsCaused};
ghost use Rattle.inputs.specs.Questions.{GivesValues, LacksValues, RefusesValues, RefusesValuesText};

use crate::load::{End, load_text};
use game_outside::Shelf;
use output::{Refusal, Text};
use std::alloc::Global;
use values_reader::{ValuesEnd, read_values};

/// Reads the values of a file, one for each of this many states, if a file is named. Otherwise nothing is asked of the
/// shelf.
pub fn load_values<H: Shelf>(
    alloc: Global,
    shelf: &mut H,
    name: Option<&str>,
    states: u32,
) -> Result<Option<Vec<f64>>, End>
    requires { H.taken shelf.old ≤ most_bytes }
    ensures accepted { IfOk result (λ read. GivesValues (H.held shelf.old)
        (option_map (λ file. file.now) name.entry) states) }
    ensures named { IfOk result (λ read. is_some read ≡ is_some name.entry) }
    ensures sizes { IfOk result (λ read. IfSome read (λ values. length values.items ≡ states)) }
    ensures refused { (refusal : Refusal) → result ≡ Err (End.Refused refusal)
        → RefusesValues (H.held shelf.old) (option_map (λ file. file.now) name.entry) states refusal }
    ensures unasked { name.entry ≡ None → shelf.new ≡ shelf.old }
    ensures shelf { LoadingLeaves H.held H.steady H.faults H.taken shelf.old shelf.new result }
    ensures steadily { IsErrOf result End.ReadFault → H.steady shelf.old ≡ true
        → LacksValues (H.held shelf.old) (option_map (λ file. file.now) name.entry) }
    ensures caused { EndsCaused result }
{
    match name {
        None => Ok(None),
        Some(name) => Ok(Some(load_values_file(alloc, shelf, name, states)?)),
    }
}

// Reads the values of a file.
fn load_values_file<H: Shelf>(
    alloc: Global,
    shelf: &mut H,
    name: &str,
    states: u32,
) -> Result<Vec<f64>, End>
    ensures accepted { IfOk result (λ values. GivesValues (H.held shelf.old) (Some name.now) states) }
    ensures sizes { IfOk result (λ values. length values.items ≡ states) }
    ensures refused { (refusal : Refusal) → result ≡ Err (End.Refused refusal)
        → RefusesValues (H.held shelf.old) (Some name.now) states refusal }
    ensures shelf { LoadingLeaves H.held H.steady H.faults H.taken shelf.old shelf.new result }
    ensures steadily { IsErrOf result End.ReadFault → H.steady shelf.old ≡ true
        → LacksValues (H.held shelf.old) (Some name.now) }
    ensures caused { EndsCaused result }
{
    let bytes = load_text(alloc, shelf, Text::Values, name)?;
    values_in(alloc, &bytes, states)
}

fn values_in(alloc: Global, bytes: &[u8], states: u32) -> Result<Vec<f64>, End>
    requires { length bytes.now ≤ most_bytes }
    ensures accepted { IfOk result (λ values. fault_of states bytes.now ≡ None) }
    ensures sizes { IfOk result (λ values. length values.items ≡ states) }
    ensures refused { (refusal : Refusal) → result ≡ Err (End.Refused refusal)
        → (fault : ValuesFault) × (refusal ≡ Refusal.OfValues fault) × (fault_of states bytes.now ≡ Some fault) }
    ensures read { IsErrOf result End.ReadFault → ⊥ }
    ensures caused { EndsCaused result }
    ensures short { IsTooLong result → ⊥ }
{
    match read_values(alloc, bytes, states) {
        Ok(values) => Ok(values),
        Err(ValuesEnd::OutOfMemory) => Err(End::OutOfMemory),
        Err(ValuesEnd::Refused(fault)) => Err(End::Refused(Refusal::OfValues(fault))),
    }
}
