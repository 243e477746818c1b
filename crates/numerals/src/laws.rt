//! This module has the laws of spellings. Each function does nothing: its contract is the law.

ghost use Rattle.std.specs.Prelude.{◌≡◌, ◌↔◌, ℕ, List, Some};
ghost use Rattle.numerals.specs.Limits.{most_digits, most_exponent_digits, most_exponent};
ghost use Rattle.numerals.specs.Spelling.{Spelling, Spells, spelling_of};

use crate::limits::{MOST_DIGITS, MOST_EXPONENT, MOST_EXPONENT_DIGITS};

/// The limits of the code are the limits of the definitions.
pub fn limits()
    ensures most_digits { MOST_DIGITS ≡ most_digits }
    ensures most_exponent_digits { MOST_EXPONENT_DIGITS ≡ most_exponent_digits }
    ensures most_exponent { MOST_EXPONENT ≡ most_exponent }
{}

/// A text is taken apart as the grammar spells it, so it has at most one spelling.
pub fn spellings()
    ensures { (text : List ℕ) (spelling : Spelling) → (spelling_of text ≡ Some spelling) ↔ Spells text spelling }
{}
