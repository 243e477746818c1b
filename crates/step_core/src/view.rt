//! This module keeps what one view has seen.

ghost use Rattle.std.specs.Prelude.{◌≡◌, ℕ, ◌<◌, List, [], length, Some, None, IsSome, is_some, slice_set, unwrap_or, IfOk, map};
ghost use Rattle.step_core.specs.Word.{values_of, greater_words};

use crate::word::value_of;
use game_outside::OutOfMemory;
use std::alloc::Global;
use std::marker::Model;

/// A view has seen one word for each state. A spent view has none.
#[derive(Drop)]
pub struct View {
    live: bool,
    words: Vec<u64>,
}

impl Model for View {
    ghost use Rattle.std.specs.Prelude.{ℕ, Option, List, Some, None, if◌then◌else◌};

    ghost Value = { Option (List ℕ) };

    ghost view = { λ v. if v.live then Some v.words.items else None };
}

impl View {
    /// Makes a live view that has seen these words.
    pub fn of_words(alloc: Global, words: &[u64]) -> Result<View, OutOfMemory>
        ensures { IfOk result (λ v. v ≡ Some words.now) }
    {
        match Vec::from_slice(alloc, words) {
            Ok(words) => Ok(View { live: true, words }),
            Err(_) => Err(OutOfMemory {}),
        }
    }

    /// Makes a spent view.
    pub fn spent(alloc: Global) -> View
        ensures { result ≡ None }
    {
        View {
            live: false,
            words: Vec::new(alloc),
        }
    }

    /// Returns whether the view is live.
    pub fn is_live(&self) -> bool
        ensures { result ≡ is_some self.now }
    {
        self.live
    }

    /// Returns the words that a live view has seen.
    pub fn words(&self) -> &[u64]
        requires { IsSome self.now }
        ensures { result.now ≡ unwrap_or self.now [] }
    {
        self.words.as_slice()
    }

    /// Lets a live view see the word of a state.
    pub fn see(&mut self, state: usize, word: u64)
        requires live { IsSome self.old }
        requires state { state < length (unwrap_or self.old []) }
        ensures { self.new ≡ Some (slice_set (unwrap_or self.old []) state word) }
    {
        self.words[state] = word;
    }

    /// Returns the values that a live view has seen.
    pub fn values(&self, alloc: Global) -> Result<Vec<u64>, OutOfMemory>
        requires { IsSome self.now }
        ensures { IfOk result (λ v. v.items ≡ values_of (unwrap_or self.now [])) }
    {
        match self.words.iter().map(|word| value_of(*word)).collect(alloc) {
            Ok(values) => Ok(values),
            Err(_) => Err(OutOfMemory {}),
        }
    }

    /// Lets a live view take in what another one has seen.
    pub fn take_in(&mut self, other: &View)
        requires live { IsSome self.old }
        requires other { IsSome other.now }
        requires as_many { length (unwrap_or other.now []) ≡ length (unwrap_or self.old []) }
        ensures { self.new ≡ Some (greater_words (unwrap_or self.old []) (unwrap_or other.now [])) }
    {
        take_greater(self.words.as_mut_slice(), other.words.as_slice());
    }
}

// Takes for each state the word of greater value.
fn take_greater(words: &mut [u64], others: &[u64])
    requires { length others.now ≡ length words.old }
    ensures { words.new ≡ greater_words words.old others.now }
{
    for state in 0..words.len() {
        if value_of(words[state]) < value_of(others[state]) {
            words[state] = others[state];
        }
    }
}
