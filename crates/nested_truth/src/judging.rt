//! This module says what bounds say of a formula inside.

ghost use Rattle.std.specs.Prelude.{◌≡◌, IfOk, length};
ghost use Rattle.formula_truth.specs.ThreeValued.{judgement, undecided_at};
ghost use Rattle.nested_truth.specs.Seen.{AreAlike, IsBand, band_in, seen};

use crate::bounds::Bounds;
use crate::known_sets::KnownSets;
use formula_reader::Bound;
use std::alloc::{AllocError, Global};
use verdicts::settle;

/// This is what is known of a state formula, and what was left open inside it.
#[derive(Drop)]
pub struct Judged {
    pub sets: KnownSets,
    /// This is the number of formulas inside, at any depth.
    pub inner: u32,
    /// This is the number of pairs of one of them and a state that are left undecided.
    pub undecided: u32,
}

impl Judged {
    ghost use Rattle.std.specs.Prelude.{ℕ, ◌+◌, ◌<◌, ◌^◌};
    ghost use Rattle.formula_reader.specs.Formula.{State, Not, And, Or, Implies};
    ghost use Rattle.formula_sets.specs.Posing.{Model};
    ghost use Rattle.formula_truth.specs.declared.way.Way.{Way};
    ghost use Rattle.nested_truth.specs.Seen.{IsJudged};

    /// Returns what is known of `!x`.
    pub fn negated(self) -> Judged
        ensures { (m : Model) (way : Way) (x : State) → IsJudged m way x self → IsJudged m way (Not x) result }
    {
        Judged {
            sets: self.sets.negated(),
            inner: self.inner,
            undecided: self.undecided,
        }
    }

    /// Returns what is known of `x & y`.
    pub fn both(self, other: Judged) -> Judged
        requires states { length other.sets.sure.items ≡ length self.sets.sure.items }
        requires inner { self.inner + other.inner < 2 ^ 32 }
        requires undecided { self.undecided + other.undecided < 2 ^ 32 }
        ensures { (m : Model) (way : Way) (x y : State) → IsJudged m way x self → IsJudged m way y other
            → IsJudged m way (And x y) result }
    {
        Judged {
            sets: self.sets.both(&other.sets),
            inner: self.inner + other.inner,
            undecided: self.undecided + other.undecided,
        }
    }

    /// Returns what is known of `x | y`.
    pub fn either(self, other: Judged) -> Judged
        requires states { length other.sets.sure.items ≡ length self.sets.sure.items }
        requires inner { self.inner + other.inner < 2 ^ 32 }
        requires undecided { self.undecided + other.undecided < 2 ^ 32 }
        ensures { (m : Model) (way : Way) (x y : State) → IsJudged m way x self → IsJudged m way y other
            → IsJudged m way (Or x y) result }
    {
        Judged {
            sets: self.sets.either(&other.sets),
            inner: self.inner + other.inner,
            undecided: self.undecided + other.undecided,
        }
    }

    /// Returns what is known of `x => y`.
    pub fn implied(self, other: Judged) -> Judged
        requires states { length other.sets.sure.items ≡ length self.sets.sure.items }
        requires inner { self.inner + other.inner < 2 ^ 32 }
        requires undecided { self.undecided + other.undecided < 2 ^ 32 }
        ensures { (m : Model) (way : Way) (x y : State) → IsJudged m way x self → IsJudged m way y other
            → IsJudged m way (Implies x y) result }
    {
        Judged {
            sets: self.sets.negated().either(&other.sets),
            inner: self.inner + other.inner,
            undecided: self.undecided + other.undecided,
        }
    }
}

/// Returns where a bound surely holds and where it possibly does, from bounds of the value at each of this many states.
/// It also returns at how many of them these bounds leave it undecided.
pub fn judged_by(
    alloc: Global,
    bound: &Bound,
    bounds: &Bounds,
    states: u32,
) -> Result<(KnownSets, u32), AllocError>
    requires { IsBand states (band_in bounds.now) }
    ensures states { IfOk result (λ found. length found.0.sure.items ≡ states) }
    ensures known { IfOk result (λ found. AreAlike states (judgement bound.now (band_in bounds.now)) (seen found.0)) }
    ensures undecided { IfOk result (λ found. found.1 ≡ undecided_at bound.now (band_in bounds.now) states) }
{
    let mut sure = Vec::with_capacity(alloc, states as usize)?;
    let mut possible = Vec::with_capacity(alloc, states as usize)?;
    let mut undecided: u32 = 0;
    for state in 0..states {
        let place = state as usize;
        let verdict = settle(bound, bounds.lower[place], bounds.upper[place]);
        sure.push(verdict.is_yes())?;
        possible.push(!verdict.is_no())?;
        undecided += u32::from(verdict.is_undecided());
    }
    Ok((KnownSets { sure, possible }, undecided))
}
