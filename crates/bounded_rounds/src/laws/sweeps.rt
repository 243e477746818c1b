//! These laws say what sweeps have in common.

ghost use Rattle.std.specs.Prelude.{◌≡◌, ℕ, ◌<◌, List};
ghost use Rattle.game_model.specs.Query.{Query, IsQuery, states};
ghost use Rattle.bounded_rounds.specs.Steps.{IsSweep};

/// Two sweeps of as many steps from the same table are the same, whatever their schedules and their numbers of workers.
pub fn sweeps_agree()
    ensures { (q : Query) (table : ℕ → ℕ) (k : ℕ) (lower upper other_lower other_upper : List ℕ) →
        IsSweep q table k lower upper → IsSweep q table k other_lower other_upper
        → (lower ≡ other_lower) × (upper ≡ other_upper) }
{}

/// Tables that are equal at all states have the same sweeps.
pub fn equal_tables_have_the_same_sweeps()
    ensures { (q : Query) (table other : ℕ → ℕ) (k : ℕ) (lower upper : List ℕ) → IsQuery q →
        ((s : ℕ) → s < states q → table s ≡ other s) → IsSweep q table k lower upper → IsSweep q other k lower upper }
{}
