//! This module has the laws of the values of a question. Each function does nothing: its contract is the law.

ghost use Rattle.std.specs.Prelude.{◌≡◌, ℕ, ◌+◌, ◌*◌, ◌^◌, ◌<◌, ◌≤◌, List, Bool};
ghost use Rattle.game_model.specs.Limits.{unit, most_states, most_choices, total_bound};
ghost use Rattle.game_model.specs.Query.{Query, IsQuery, states};
ghost use Rattle.game_model.specs.Values.{denominator, numerator};
ghost use Rattle.game_model.specs.Dual.{open_numerator, swapped, IsZeroSet};

use crate::limits::{MOST_CHOICES, MOST_STATES, UNIT};

/// The constants are the numbers of the definitions, and a total times the unit takes at most 127 bits.
pub fn limits()
    ensures unit { UNIT ≡ unit }
    ensures states { MOST_STATES ≡ most_states }
    ensures choices { MOST_CHOICES ≡ most_choices }
    ensures fits { total_bound * unit < 2 ^ 127 }
{}

/// The k-step values never fall when k grows.
pub fn values_rise()
    ensures { (q : Query) (k s : ℕ) → numerator q k s * denominator q.game ≤ numerator q (k + 1) s }
{}

/// The k-step values are at most 1.
pub fn values_at_most_one()
    ensures { (q : Query) (k s : ℕ) → IsQuery q → numerator q k s ≤ denominator q.game ^ k }
{}

/// Let the lost states be those of value 0. Then the value of not being lost after k steps and the value with which the
/// other side reaches the lost states within k steps add up to 1.
pub fn swap_law()
    ensures { (q : Query) (lost : List Bool) → IsQuery q → IsZeroSet q lost →
        (k s : ℕ) → s < states q → open_numerator q lost k s + numerator (swapped q lost) k s ≡ denominator q.game ^ k }
{}

/// Let the lost states be those of value 0. Then a k-step value is at most the value of not being lost after any number
/// of steps.
pub fn values_below_open_values()
    ensures { (q : Query) (lost : List Bool) → IsQuery q → IsZeroSet q lost →
        (k j s : ℕ) → s < states q → numerator q k s * denominator q.game ^ j
        ≤ open_numerator q lost j s * denominator q.game ^ k }
{}
