//! Owners are the players who choose at each state.

ghost use Rattle.std.specs.Prelude.{◌≡◌, ◌<◌, ◌≤◌, ◌∷◌, [], None, length, replicate, codes, IfOk};

use game_outside::OutOfMemory;
use indexmap::IndexMap;
use std::alloc::{AllocError, Global};
use std::marker::Model;

/// Holds the players of a game in the order of their header, and the player who owns each state. Contracts see them as
/// an `Ownership`.
#[derive(Drop)]
pub struct Owners {
    names: IndexMap<Vec<u8>, u64>,
    owners: Vec<Option<u32>>,
}

impl Model for Owners {
    ghost use Rattle.label_lines.specs.Owners.{Ownership};
    ghost use Rattle.label_lines.specs.Named.{names_of, places_of};
    ghost use Rattle.label_reader.specs.Named.{AreOwned};

    ghost Value = { Ownership };

    ghost view = { λ o. record { players = names_of o.names.entries; owners = places_of o.owners.items } };

    ghost invariant = { λ o. AreOwned o.names.entries o.owners.items };
}

impl Owners {
    ghost use Rattle.label_lines.specs.Named.{names_of, places_of};
    ghost use Rattle.label_reader.specs.Named.{AreOwned};
    ghost use Rattle.label_lines.specs.Owners.{is_player, owner_of, IsOwnership};

    /// Makes the players with these names, and the place of each state's owner, which is the first if none is named.
    pub(crate) fn new(names: IndexMap<Vec<u8>, u64>, owners: Vec<Option<u32>>) -> Owners
        requires { AreOwned names.entries owners.items }
        ensures { result ≡ record { players = names_of names.entries; owners = places_of owners.items } }
    {
        Owners { names, owners }
    }

    /// Shows what every ownership keeps: each owner is one of the players.
    pub fn invariant(&self)
        ensures { IsOwnership self.now }
    {
        let _ = &self.owners;
    }

    /// Makes one player, named `p0`, who owns all of `states` states.
    pub fn single(alloc: Global, states: u32) -> Result<Owners, OutOfMemory>
        ensures players { IfOk result (λ o. o.players ≡ codes "p0" ∷ []) }
        ensures owners { IfOk result (λ o. o.owners ≡ replicate states 0) }
    {
        match first_owns_all(alloc, states) {
            Ok(owners) => Ok(owners),
            Err(_) => Err(OutOfMemory {}),
        }
    }

    /// Returns whether there is a player with this name.
    pub fn knows(&self, name: &[u8]) -> bool
        ensures { result ≡ is_player self.now name.now }
    {
        self.names.contains_key(name)
    }

    /// Returns the name of the player who owns a state.
    pub fn owner(&self, state: u32) -> &[u8]
        requires { state < length self.now.owners }
        ensures { result.now ≡ owner_of self.now state }
    {
        let place = self.owners[state as usize].unwrap_or(0);
        match self.names.get_index(place as usize) {
            Some((name, _)) => name,
            None => &[],
        }
    }
}

/// Names no owner for any of `states` states.
pub fn nobody(alloc: Global, states: u32) -> Result<Vec<Option<u32>>, AllocError>
    ensures { IfOk result (λ owners. owners.items ≡ replicate states None) }
{
    let owners = vec![in alloc; None; states as usize]?;
    Ok(owners)
}

fn first_owns_all(alloc: Global, states: u32) -> Result<Owners, AllocError>
    ensures players { IfOk result (λ o. o.players ≡ codes "p0" ∷ []) }
    ensures owners { IfOk result (λ o. o.owners ≡ replicate states 0) }
{
    let mut names = IndexMap::new(alloc);
    names.insert(Vec::from_slice(alloc, b"p0")?, 0)?;
    let owners = nobody(alloc, states)?;
    Ok(Owners { names, owners })
}
