//! This module defines formulas as values.

ghost use Rattle.std.specs.Prelude.{◌≡◌};

use fractions::Frac;
use game_outside::Name;

/// A state formula is a property of states: labels, formulas inside, and their combinations.
#[cycle(formula)]
#[derive(Drop)]
pub enum StateFormula {
    /// `true` holds at every state.
    True,
    /// `false` holds at no state.
    False,
    /// The formula holds at the states with this label.
    Label(Name),
    /// `!x`
    Not(Box<StateFormula>),
    /// `x & y`
    And(Box<StateFormula>, Box<StateFormula>),
    /// `x | y`
    Or(Box<StateFormula>, Box<StateFormula>),
    /// `x => y`
    Implies(Box<StateFormula>, Box<StateFormula>),
    /// A formula inside holds at the states where it is true, as `P>=0.5 [ F "goal" ]`.
    Inner(Box<Formula>),
}

/// A bound asks that a probability meets a threshold, or asks for its greatest or least value.
#[derive(Clone, Copy, Debug, PartialEq, Eq)]
pub enum Bound {
    /// `P>=p`
    AtLeast(Frac),
    /// `P>p`
    Above(Frac),
    /// `P<=p`
    AtMost(Frac),
    /// `P<p`
    Below(Frac),
    /// `Pmax=?` asks for the greatest value.
    AskMax,
    /// `Pmin=?` asks for the least value.
    AskMin,
}

/// A comparison says how a probability is compared with a threshold.
#[derive(Clone, Copy, Debug, PartialEq, Eq)]
pub enum Comparison {
    AtLeast,
    Above,
    AtMost,
    Below,
}

impl Comparison {
    ghost use Rattle.formula_reader.specs.inside.Bounds.{bound_with};

    /// Returns the bound that compares with this threshold.
    pub fn bound(self, threshold: Frac) -> Bound
        ensures { result ≡ bound_with self threshold }
    {
        match self {
            Comparison::AtLeast => Bound::AtLeast(threshold),
            Comparison::Above => Bound::Above(threshold),
            Comparison::AtMost => Bound::AtMost(threshold),
            Comparison::Below => Bound::Below(threshold),
        }
    }
}

/// These are the names of the players in a coalition.
#[derive(Drop)]
pub struct Names {
    pub list: Vec<Name>,
}

/// The kind of a path says what a formula asks of it, such as `left U right`.
#[derive(Clone, Copy, Debug, PartialEq, Eq)]
pub enum PathKind {
    /// `left U right` holds if a state is reached where the right side holds, and the left side holds at each state
    /// before it. `F right` has `True` on the left.
    Until,
    /// `left U<=k right` asks for the same within `k` steps. `F<=k right` has `True` on the left.
    Within(u32),
    /// `X right` holds if the right side holds at the next state. The left side is `True`.
    Next,
    /// `G right` holds if the right side holds at every state. The left side is `True`.
    Always,
}

/// A formula is a bound on the probability of paths, for a coalition of players if one is named.
#[cycle(formula)]
#[derive(Drop)]
pub struct Formula {
    pub coalition: Option<Names>,
    pub bound: Bound,
    pub kind: PathKind,
    pub left: StateFormula,
    pub right: StateFormula,
}
