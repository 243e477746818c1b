//! This module has the laws of the best strategies: what each side can be sure of.

ghost use Rattle.std.specs.Prelude.{ℕ, Bool, if◌then◌else◌};
ghost use Rattle.game_model.specs.Game.{choices_of};
ghost use Rattle.game_model.specs.Query.{Query, IsQuery, side_at};
ghost use Rattle.game_model.specs.Values.{optimum};
ghost use Rattle.strategies.specs.Strategies.{worth, AreBest};
ghost use Rattle.strategies.specs.Next.{AreBestNext};

/// The k-step value is the greatest probability that the maximiser can be sure of, and the least to which the minimiser
/// can hold the maximiser, among all strategies with memory and dice.
pub fn values_are_best()
    ensures { (q : Query) (k : ℕ) → IsQuery q → AreBest q k }
{}

/// The optimum of the choices is the greatest probability for the next state that the maximiser can be sure of, and the
/// least to which the minimiser can hold the maximiser.
pub fn next_values_are_best()
    ensures { (q : Query) (holds : ℕ → Bool) → IsQuery q
        → AreBestNext q holds (λ s. optimum (side_at q s) (worth q (λ t. if holds t then 1 else 0))
        (choices_of q.game s)) }
{}
