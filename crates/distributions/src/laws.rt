//! This module has the laws of choices. Each function does nothing: its contract is the law.

ghost use Rattle.std.specs.Prelude.{◌≡◌, ◌↔◌, List, Ok, All};
ghost use Rattle.std.specs.List.Sorted.{IsPermutation};
ghost use Rattle.game_model.specs.Game.{Distribution};
ghost use Rattle.fractions.specs.Fraction.{IsFraction};
ghost use Rattle.distributions.specs.declared.choice.Part.{Part};
ghost use Rattle.distributions.specs.Limits.{most_parts, tolerance};
ghost use Rattle.distributions.specs.Parts.{DenotesChoice, choice_said};

use crate::limits::{MOST_PARTS, TOLERANCE};

/// The limits of the code are the limits of the definitions.
pub fn limits()
    ensures most_parts { MOST_PARTS ≡ most_parts }
    ensures tolerance { TOLERANCE ≡ tolerance }
{}

/// The distribution that the cases give for parts is the distribution that the parts denote.
pub fn said_is_denoted()
    ensures { (parts : List Part) (d : Distribution) → All (λ part. IsFraction part.share) parts
        → (choice_said parts ≡ Ok d) ↔ DenotesChoice parts d }
{}

/// The order of the parts does not matter.
pub fn order_of_parts()
    ensures { (parts others : List Part) (d : Distribution) → IsPermutation parts others → DenotesChoice parts d
        → DenotesChoice others d }
{}
