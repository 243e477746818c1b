//! These laws say how near rounded steps and sweeps are to exact values.

ghost use Rattle.std.specs.Prelude.{ℕ, ◌*◌, ◌^◌, ◌<◌, List, Bool, slice_index};
ghost use Rattle.game_model.specs.Query.{Query, IsQuery, states};
ghost use Rattle.game_model.specs.Values.{denominator, numerator};
ghost use Rattle.game_model.specs.Limits.{unit};
ghost use Rattle.game_model.specs.Rounded.{opening};
ghost use Rattle.bounded_rounds.specs.Steps.{down_from, up_from, IsSweep};
ghost use Rattle.bounded_rounds.specs.Exact.{exact_from, next_numerator, IsNext, IsBracketed};

/// The exact value of k steps from a table lies between the k-fold down step and the k-fold up step, and is at most k
/// units from each.
pub fn rounded_steps_bracket_exact_values()
    ensures { (q : Query) (table : ℕ → ℕ) (k s : ℕ) → IsQuery q →
        IsBracketed k (denominator q.game ^ k) (down_from q table k s) (up_from q table k s) (exact_from q table k s) }
{}

/// A sweep of k steps from the opening table of iteration brackets the k-step values, within k units.
pub fn bounded_values_are_bracketed()
    ensures { (q : Query) (k : ℕ) (lower upper : List ℕ) → IsQuery q → IsSweep q (opening q) k lower upper →
        (s : ℕ) → s < states q → IsBracketed k (denominator q.game ^ k) (slice_index lower s) (slice_index upper s)
        (unit * numerator q k s) }
{}

/// Without goals and dead states, a sweep of one step from the unit at some states and 0 elsewhere brackets the
/// probability that one of those states is next, within one unit.
pub fn next_values_are_bracketed()
    ensures { (q : Query) (table : ℕ → ℕ) (holds : ℕ → Bool) (lower upper : List ℕ) → IsQuery q → IsNext q table holds
        → IsSweep q table 1 lower upper →
        (s : ℕ) → s < states q → IsBracketed 1 (denominator q.game) (slice_index lower s) (slice_index upper s)
        (unit * next_numerator q holds s) }
{}
