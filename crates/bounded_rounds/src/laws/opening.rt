//! These laws say what the steps from opening tables are.

ghost use Rattle.std.specs.Prelude.{◌≡◌, ℕ, ◌*◌, ◌<◌, Bool};
ghost use Rattle.game_model.specs.Query.{Query, IsQuery, states};
ghost use Rattle.game_model.specs.Values.{numerator};
ghost use Rattle.game_model.specs.Limits.{unit};
ghost use Rattle.game_model.specs.Rounded.{down_steps, opening};
ghost use Rattle.bounded_rounds.specs.Steps.{down_from};
ghost use Rattle.bounded_rounds.specs.Exact.{exact_from, next_numerator, IsNext};

/// From the opening table of iteration the exact values are the k-step values.
pub fn exact_values_are_k_step_values()
    ensures { (q : Query) (k s : ℕ) → exact_from q (opening q) k s ≡ unit * numerator q k s }
{}

/// From the opening table of iteration the down steps are those of iteration.
pub fn down_steps_are_those_of_iteration()
    ensures { (q : Query) (k s : ℕ) → IsQuery q → down_from q (opening q) k s ≡ down_steps q k s }
{}

/// Without goals and dead states, from the unit at some states and 0 elsewhere, the exact value of one step is the
/// probability that one of those states is next.
pub fn one_step_is_the_next_value()
    ensures { (q : Query) (table : ℕ → ℕ) (holds : ℕ → Bool) → IsQuery q → IsNext q table holds →
        (s : ℕ) → s < states q → exact_from q table 1 s ≡ unit * next_numerator q holds s }
{}
