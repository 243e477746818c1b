//! This module gives the sides that a bound leads to.

ghost use Rattle.std.specs.Prelude.{◌≡◌};
ghost use Rattle.formula_sets.specs.Sides.{coalition_side, common_side};

use formula_reader::Bound;
use game_model::Side;

/// Returns the side of a coalition.
pub fn coalition_side_of(bound: &Bound) -> Side
    ensures { result ≡ coalition_side bound.now }
{
    match bound {
        Bound::AtLeast(_) | Bound::Above(_) | Bound::AskMax => Side::Max,
        Bound::AtMost(_) | Bound::Below(_) | Bound::AskMin => Side::Min,
    }
}

/// Returns the side of all states if no coalition is named.
pub fn common_side_of(bound: &Bound) -> Side
    ensures { result ≡ common_side bound.now }
{
    match bound {
        Bound::AtMost(_) | Bound::Below(_) | Bound::AskMax => Side::Max,
        Bound::AtLeast(_) | Bound::Above(_) | Bound::AskMin => Side::Min,
    }
}
