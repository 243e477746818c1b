//! This module has the laws of certificates. Each function does nothing: its contract is the law.

ghost use Rattle.std.specs.Prelude.{◌≡◌, ◌≤◌, ◌^◌, ◌++◌, ◌↔◌, List, ℕ, All, Ok, Some, codes, length};
ghost use Rattle.game_model.specs.Limits.{unit, most_states};
ghost use Rattle.plan_text.specs.Fixed.{fixed, unit_digits};
ghost use Rattle.plan_text.specs.Entries.{Entry, IsInRange, greatest_choice};
ghost use Rattle.plan_text.specs.Written.{certificate_text};
ghost use Rattle.plan_text.specs.declared.version.Version.TheVariants.{One, Two};
ghost use Rattle.plan_text.specs.Said.{entries_said, units_of};
ghost use Rattle.plan_text.specs.Certificate.{IsCertificate};
ghost use Rattle.plan_text.specs.Laws.{IsPassedOver, as_lines};

use crate::entry::GREATEST_CHOICE;
use crate::fixed::UNIT_DIGITS;

/// The constants are equal to the numbers of the definitions, and the unit is ten to the power of `unit_digits`.
pub fn limits()
    ensures digits { UNIT_DIGITS ≡ unit_digits }
    ensures unit { 10 ^ unit_digits ≡ unit }
    ensures choice { GREATEST_CHOICE ≡ greatest_choice }
{}

/// No two values have the same text.
pub fn fixed_text_has_one_reading()
    ensures { (u v : ℕ) → u ≤ unit → v ≤ unit → fixed u ≡ fixed v → u ≡ v }
{}

/// A value of the first version, with three zeros more, is the same value of the second version.
pub fn old_values_have_three_zeros_less()
    ensures { (field : List ℕ) (u : ℕ) → units_of One field ≡ Some u → units_of Two (field ++ codes "000") ≡ Some u }
{}

/// A written certificate is read back, also after lines that begin with another word.
pub fn certificates_are_read_back()
    ensures { (lines : List (List ℕ)) (entries : List Entry) → All IsPassedOver lines → length entries ≤ most_states
        → All IsInRange entries
        → entries_said (as_lines lines ++ certificate_text entries) (length entries) ≡ Ok entries }
{}

/// No two certificates have the same text.
pub fn certificates_have_one_reading()
    ensures { (entries others : List Entry) → length entries ≤ most_states → length others ≤ most_states
        → All IsInRange entries → All IsInRange others
        → certificate_text entries ≡ certificate_text others → entries ≡ others }
{}

/// The entries that are read for this many states are those of a certificate in the text, and those of each certificate
/// in the text are read.
pub fn certificates_are_what_is_read()
    ensures { (text : List ℕ) (states : ℕ) (entries : List Entry)
        → (entries_said text states ≡ Ok entries) ↔ ((length entries ≡ states) × IsCertificate text entries) }
{}
