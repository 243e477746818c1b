//! This module has what is known of a state formula.

ghost use Rattle.std.specs.Prelude.{◌≡◌, ◌↔◌, length, true, IfOk};
ghost use Rattle.label_lines.specs.Labels.{holds_at};

use formula_sets::{intersect, marks_of_label, negate, unite};
use game_outside::Name;
use label_reader::Labels;
use std::alloc::{AllocError, Global};

/// Two marks for each state say whether a state formula surely holds there, and whether it possibly does.
#[derive(Drop)]
pub struct KnownSets {
    /// It surely holds at these states.
    pub sure: Vec<bool>,
    /// It possibly holds at these states.
    pub possible: Vec<bool>,
    ghost even: { length possible.items ≡ length sure.items },
}

impl KnownSets {
    ghost use Rattle.formula_truth.specs.ThreeValued.{exactly, negated, both, either};
    ghost use Rattle.nested_truth.specs.Seen.{AreAlike, seen};

    /// Says that a formula holds at all of this many states, or at none.
    pub fn same_at_all(alloc: Global, holds: bool, states: u32) -> Result<KnownSets, AllocError>
        ensures states { IfOk result (λ sets. length sets.sure.items ≡ states) }
        ensures known { IfOk result (λ sets. AreAlike states (exactly (λ s. holds)) (seen sets)) }
    {
        let sure = vec![in alloc; holds; states as usize]?;
        let possible = vec![in alloc; holds; states as usize]?;
        Ok(KnownSets { sure, possible })
    }

    /// Says that a formula holds where the label with this name does.
    pub fn of_label(
        alloc: Global,
        labels: &Labels,
        name: &Name,
        states: u32,
    ) -> Result<KnownSets, AllocError>
        requires { labels.now.states ≡ states }
        ensures states { IfOk result (λ sets. length sets.sure.items ≡ states) }
        ensures known { IfOk result (λ sets. AreAlike states (exactly (holds_at labels.now name.now)) (seen sets)) }
    {
        let sure = marks_of_label(alloc, labels, name, states)?;
        let possible = marks_of_label(alloc, labels, name, states)?;
        Ok(KnownSets { sure, possible })
    }

    /// Returns what is known of the negation.
    pub fn negated(self) -> KnownSets
        ensures states { length result.sure.items ≡ length self.sure.items }
        ensures known { AreAlike (length self.sure.items) (negated (seen self)) (seen result) }
    {
        let KnownSets {
            mut sure,
            mut possible,
        } = self;
        negate(&mut sure);
        negate(&mut possible);
        KnownSets {
            sure: possible,
            possible: sure,
        }
    }

    /// Returns what is known of both together.
    pub fn both(self, other: &KnownSets) -> KnownSets
        requires { length other.now.sure.items ≡ length self.sure.items }
        ensures states { length result.sure.items ≡ length self.sure.items }
        ensures known { AreAlike (length self.sure.items) (both (seen self) (seen other.now)) (seen result) }
    {
        let KnownSets {
            mut sure,
            mut possible,
        } = self;
        intersect(&mut sure, &other.sure);
        intersect(&mut possible, &other.possible);
        KnownSets { sure, possible }
    }

    /// Returns what is known of one or the other.
    pub fn either(self, other: &KnownSets) -> KnownSets
        requires { length other.now.sure.items ≡ length self.sure.items }
        ensures states { length result.sure.items ≡ length self.sure.items }
        ensures known { AreAlike (length self.sure.items) (either (seen self) (seen other.now)) (seen result) }
    {
        let KnownSets {
            mut sure,
            mut possible,
        } = self;
        unite(&mut sure, &other.sure);
        unite(&mut possible, &other.possible);
        KnownSets { sure, possible }
    }
}

/// Returns whether two lists of marks are the same.
pub fn are_equal(one: &[bool], other: &[bool]) -> bool
    ensures { (result ≡ true) ↔ (one.now ≡ other.now) }
{
    one == other
}
