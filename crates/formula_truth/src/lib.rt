//! This crate defines when formulas with formulas inside are true, and what bounds say of it.
//!
//! A formula inside a state formula holds where it is true (nested PCTL, Hansson and Jonsson 1994): `IsTruth` of
//! `specs/Truth.antt`. Bounds settle a formula inside at some states and leave it undecided at others. Then a state
//! formula has a set of states where it surely holds and a set where it possibly does (three-valued abstraction, Bruns
//! and Godefroid 1999): `specs/ThreeValued.antt`. `AreFound` of `specs/InnerRuns.antt` has the bounds that are found
//! so, by rounds or by a solver ([`Way`]), and `specs/RoundBounds.antt` those that only rounded steps give. There is no
//! other code: `laws` has what holds of them.
#![tactic(auto)]

pub mod laws;
mod way;

pub use way::Way;
