//! A header says which index means which name.

ghost use Rattle.std.specs.Prelude.{◌≡◌, ◌<◌, ◌≤◌, ◌+◌, ◌++◌, ◌∷◌, [], ℕ, Bool, false, List, Some, None, IfSome, MatchResult, length};
ghost use Rattle.text_lines.specs.Text.{fields_of};
ghost use Rattle.label_lines.specs.Header.{place_in, place_of, has_index, has_name, passes_limit, with_item, item_of, header_of};
ghost use Rattle.label_lines.specs.Limits.{most_labels, greatest_index};
ghost use Rattle.label_lines.specs.Texts.{IsOutOfMemoryCause};
ghost use Rattle.game_outside.specs.Answers.{AnswersOrWants};

use crate::faults::LabCause;
use crate::item::read_item;
use crate::kind::{FileKind, GREATEST_INDEX};
use indexmap::IndexMap;
use std::alloc::Global;
use std::collections::HashMap;
use std::marker::Model;
use text_lines::{first_field, whole};

/// A header has items, which contracts see as a list.
#[derive(Drop)]
pub struct Header {
    names: IndexMap<Vec<u8>, u64>,
    places: HashMap<u64, u32>,
}

impl Model for Header {
    ghost use Rattle.std.specs.Prelude.{List};
    ghost use Rattle.label_lines.specs.Header.{Item};
    ghost use Rattle.label_lines.specs.Placed.{items_of, ArePlaced};

    ghost Value = { List Item };

    ghost view = { λ h. items_of h.names.entries };

    ghost invariant = { λ h. ArePlaced (items_of h.names.entries) h.places };
}

impl Header {
    ghost use Rattle.label_lines.specs.Placed.{AreSingle, items_of};

    /// Makes a header without an item.
    pub(crate) fn new(alloc: Global) -> Header
        ensures { result ≡ [] }
    {
        Header {
            names: IndexMap::new(alloc),
            places: HashMap::new(alloc),
        }
    }

    /// Returns the number of items.
    pub fn len(&self) -> usize
        ensures len { result ≡ length self.now }
        ensures single { AreSingle self.now }
    {
        let _ = &self.places;
        self.names.len()
    }

    /// Returns the names with their indices.
    pub fn into_names(self) -> IndexMap<Vec<u8>, u64>
        ensures { items_of result.entries ≡ self }
    {
        let Header { names, places: _ } = self;
        names
    }

    /// Returns the place of the item whose index a field spells.
    pub fn place(&self, field: &[u8]) -> Option<u32>
        ensures value { result ≡ place_in self.now field.now }
        ensures within { IfSome result (λ place. place < length self.now) }
    {
        match whole(field) {
            Some(index) => self.places.get(&index).copied(),
            None => None,
        }
    }

    // Returns whether an item with this index would pass a limit.
    fn is_over(&self, kind: FileKind, index: u64) -> bool
        ensures { result ≡ passes_limit kind self.now index }
    {
        self.len() >= kind.most_items() || index > GREATEST_INDEX
    }

    fn has_index(&self, index: u64) -> bool
        ensures { result ≡ has_index self.now index }
    {
        self.places.contains_key(&index)
    }

    fn has_name(&self, name: &[u8]) -> bool
        ensures { result ≡ has_name self.now name.now }
    {
        self.names.contains_key(name)
    }

    // Adds one item, which is new.
    fn with(self, alloc: Global, index: u64, name: &[u8]) -> Result<Header, LabCause>
        requires few { length self < most_labels }
        requires small { index ≤ greatest_index }
        requires new_index { has_index self index ≡ false }
        requires new_name { has_name self name.now ≡ false }
        ensures { MatchResult result (λ h. h ≡ self ++ (record { index = index; name = name.now }) ∷ [])
            (λ cause. cause ≡ LabCause.OutOfMemory) }
    {
        let Header {
            mut names,
            mut places,
        } = self;
        let place = names.len() as u32;
        let Ok(name) = Vec::from_slice(alloc, name) else {
            return Err(LabCause::OutOfMemory);
        };
        let Ok(_) = names.insert(name, index) else {
            return Err(LabCause::OutOfMemory);
        };
        let Ok(_) = places.insert(index, place) else {
            return Err(LabCause::OutOfMemory);
        };
        Ok(Header { names, places })
    }

    /// Adds the item that a field spells, or gives its first fault.
    pub(crate) fn add(self, alloc: Global, kind: FileKind, field: &[u8]) -> Result<Header, LabCause>
        ensures { AnswersOrWants IsOutOfMemoryCause (λ items. items) result
            (with_item kind self (item_of kind field.now)) }
    {
        let Some((index, name)) = read_item(kind, field) else {
            return Err(LabCause::BadHeader);
        };
        if self.is_over(kind, index) {
            return Err(LabCause::OverLimit);
        }
        if self.has_index(index) {
            return Err(LabCause::DoubleIndex);
        }
        if self.has_name(name) {
            return Err(LabCause::DoubleName);
        }
        self.with(alloc, index, name)
    }
}

/// Reads the items of a header line, or gives its first fault.
pub fn read_header(alloc: Global, kind: FileKind, line: &[u8]) -> Result<Header, LabCause>
    ensures { AnswersOrWants IsOutOfMemoryCause (λ items. items) result (header_of kind (fields_of line.now)) }
{
    if first_field(line).is_none() {
        return Err(LabCause::NoHeader);
    }
    let mut header = Header::new(alloc);
    let mut rest = line;
    while let Some((field, after)) = first_field(rest) {
        header = match header.add(alloc, kind, field) {
            Ok(more) => more,
            Err(cause) => return Err(cause),
        };
        rest = after;
    }
    Ok(header)
}
