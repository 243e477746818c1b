//! This module has the law of values of rewards. The function does nothing: its contract is the law.

ghost use Rattle.std.specs.Prelude.{◌≡◌, ◌∷◌, ◌++◌, ℕ, List, Option};
ghost use Rattle.reward_values.specs.Values.{IsValue, value_text};

/// No two values of the same places have the same text. The text of a value ends at the first space behind it.
pub fn values_have_one_reading()
    ensures alone { (places : ℕ) (value other : Option ℕ) → IsValue value → IsValue other
        → value_text places value ≡ value_text places other → value ≡ other }
    ensures before_a_space { (places : ℕ) (value other : Option ℕ) (rest behind : List ℕ) → IsValue value
        → IsValue other → value_text places value ++ 32 ∷ rest ≡ value_text places other ++ 32 ∷ behind
        → (value ≡ other) × (rest ≡ behind) }
{}
