//! This module says why a formula poses no question.

ghost use Rattle.std.specs.Prelude.{◌≡◌, ◌⊎◌};

use game_outside::Name;
use std::alloc::Global;

/// A formula poses no question because memory ran out, or for the first reason in this order.
#[derive(Drop)]
pub enum PoseFault {
    OutOfMemory,
    /// No label has this name, which is the first such name in the text.
    UnknownLabel(Name),
    /// No player has this name, which is the first such name in the text.
    UnknownPlayer(Name),
    /// No state has the label `init`.
    NoInit,
}

impl PoseFault {
    // Returns the fault that no label has this name.
    pub(crate) fn label(alloc: Global, name: &Name) -> PoseFault
        ensures { (result ≡ PoseFault.OutOfMemory) ⊎ (result ≡ PoseFault.UnknownLabel name.now) }
    {
        match Name::from_bytes(alloc, name.as_bytes()) {
            Ok(name) => PoseFault::UnknownLabel(name),
            Err(_) => PoseFault::OutOfMemory,
        }
    }

    // Returns the fault that no player has this name.
    pub(crate) fn player(alloc: Global, name: &Name) -> PoseFault
        ensures { (result ≡ PoseFault.OutOfMemory) ⊎ (result ≡ PoseFault.UnknownPlayer name.now) }
    {
        match Name::from_bytes(alloc, name.as_bytes()) {
            Ok(name) => PoseFault::UnknownPlayer(name),
            Err(_) => PoseFault::OutOfMemory,
        }
    }
}
