//! This module defines formulas of rewards as values.

ghost use Rattle.std.specs.Prelude.{◌≡◌};

use formula_reader::{Comparison, Formula, Names, StateFormula};
use game_outside::Name;
use rewards_reader::Amount;

/// A bound asks that an expected reward meets a threshold, or asks for its greatest or least value.
#[derive(Clone, Copy, Debug, PartialEq, Eq)]
pub enum RewardBound {
    /// `R>=x`
    AtLeast(Amount),
    /// `R>x`
    Above(Amount),
    /// `R<=x`
    AtMost(Amount),
    /// `R<x`
    Below(Amount),
    /// `Rmax=?` asks for the greatest value.
    AskMax,
    /// `Rmin=?` asks for the least value.
    AskMin,
}

impl RewardBound {
    ghost use Rattle.reward_formula.specs.Grammar.{bound_with};

    /// Returns the bound that compares with this threshold.
    pub(crate) fn with(comparison: Comparison, threshold: Amount) -> RewardBound
        ensures { result ≡ bound_with comparison threshold }
    {
        match comparison {
            Comparison::AtLeast => RewardBound::AtLeast(threshold),
            Comparison::Above => RewardBound::Above(threshold),
            Comparison::AtMost => RewardBound::AtMost(threshold),
            Comparison::Below => RewardBound::Below(threshold),
        }
    }
}

/// A formula of rewards is a bound on what is expected to be collected before the goal holds, for a coalition of
/// players if one is named.
#[derive(Drop)]
pub struct RewardFormula {
    pub coalition: Option<Names>,
    /// This is the name of the rewards, if one is given. It is for the reader alone.
    pub name: Option<Name>,
    pub bound: RewardBound,
    /// Nothing more is collected from the first state on where this holds. No formula is inside it.
    pub goal: StateFormula,
}

/// A formula is a bound on a probability, or on an expected reward.
#[derive(Drop)]
pub enum AnyFormula {
    OfProbability(Formula),
    OfReward(RewardFormula),
}
