//! This module has the laws of numbers. Each function does nothing: its contract is the law.

ghost use Rattle.std.specs.Prelude.{◌≡◌, ◌≤◌, ◌^◌, ◌↔◌, ℕ, List, Ok};
ghost use Prim.Native.Nat.{◌∣◌};
ghost use Rattle.std.specs.Int.{IsGcd};
ghost use Rattle.fractions.specs.Divisors.{gcd, lcm};
ghost use Rattle.fractions.specs.Limits.{finest, most_value};
ghost use Rattle.fractions.specs.Fraction.{Fraction};
ghost use Rattle.fractions.specs.Number.{number_said, DenotesNumber};

use crate::limits::{FINEST, FINEST_PLACES, MOST_VALUE};

/// The limits of the code are the limits of the definitions.
pub fn limits()
    ensures finest { FINEST ≡ finest }
    ensures finest_places { 10 ^ FINEST_PLACES ≡ finest }
    ensures most_value { MOST_VALUE ≡ most_value }
{}

/// The greatest common divisor divides both numbers, and each number that divides both divides it.
pub fn greatest_common_divisors()
    ensures { (a b : ℕ) → IsGcd a b (gcd a b) }
{}

/// The least common multiple is a multiple of both numbers, and divides each common multiple.
pub fn least_common_multiples()
    ensures multiple { (a b : ℕ) → 1 ≤ b → (a ∣ lcm a b) × (b ∣ lcm a b) }
    ensures least { (a b m : ℕ) → 1 ≤ b → a ∣ m → b ∣ m → lcm a b ∣ m }
{}

/// The number that the cases give for a text is the number that the text denotes.
pub fn numbers_are_those_that_a_text_denotes()
    ensures { (text : List ℕ) (f : Fraction) → (number_said text ≡ Ok f) ↔ DenotesNumber text f }
{}
