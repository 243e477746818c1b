//! This module says why a text is no formula.

ghost use Rattle.std.specs.Prelude.{◌≡◌};
ghost use Rattle.formula_tokens.specs.Fault.{fault_at};

use fractions::NumberFault;

/// A cause says what is wrong with a text, or that memory ran out.
#[derive(Clone, Copy, Debug, PartialEq, Eq)]
pub enum FormulaCause {
    /// Memory ran out. The place is 0.
    OutOfMemory,
    /// Bytes form no token, or the grammar does not allow a token there.
    Unexpected,
    /// The text ends where a token has to come, or inside a quoted name. The place is the text's length.
    End,
    /// Too many `(`, `!` and `[` of formulas inside would be open at once with this one.
    TooDeep,
    /// The threshold is no number, for this reason.
    BadNumber(NumberFault),
    /// The threshold is above 1.
    ThresholdOutOfRange,
    /// The text has more than `LONGEST` bytes, which is the place.
    TooLong,
    /// The number of steps behind `F<=` or `U<=` is not a whole number, or is above the limit.
    BadSteps,
    /// `Pmax` or `Pmin` is the bound of a formula inside, which has to compare with a threshold.
    AskInside,
}

/// A fault has a cause, and the offset in bytes of the token that it is about.
#[derive(Clone, Copy, Debug, PartialEq, Eq)]
pub struct FormulaFault {
    pub place: u32,
    pub cause: FormulaCause,
}

impl FormulaFault {
    /// Makes the fault of this cause at a byte of the text.
    pub fn new(place: u32, cause: FormulaCause) -> FormulaFault
        ensures { result ≡ fault_at place cause }
    {
        FormulaFault { place, cause }
    }
}
