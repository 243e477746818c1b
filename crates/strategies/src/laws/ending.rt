//! This module has the laws of plays that end.

ghost use Rattle.std.specs.Prelude.{ℕ, ◌+◌, ◌*◌, ◌^◌, ◌<◌, ◌≤◌, List, [], Bool};
ghost use Rattle.game_model.specs.Query.{Query, IsQuery, states};
ghost use Rattle.game_model.specs.Values.{denominator};
ghost use Rattle.strategies.specs.Strategies.{Strategy, IsStrategyOf, reach};
ghost use Rattle.strategies.specs.Stopping.{undecided, ending, IsStopping, AreClose, IsWithin};
ghost use Rattle.game_model.specs.Dual.{IsZeroSet};
ghost use Rattle.game_model.specs.declared.game.Side.TheVariants.{Max, Min};

/// If plays come to an end, a bracket closes. Suppose that from every state, however both play, the play is over within
/// n steps with a positive probability. Then after r rounds, with r at least j times n, the upper bound is above the
/// lower one by at most 2 r units and the j-th power of 1 - 1/D^n.
pub fn stopping_brackets_close()
    ensures { (q : Query) (lost : List Bool) (n j r : ℕ) (lower upper : ℕ → ℕ) → IsQuery q → IsZeroSet q lost
        → IsStopping q lost n → j * n ≤ r →
        AreClose q lost r lower upper → IsWithin q n j r lower upper }
{}

/// However both play, with memory and dice, a play is over within k steps with at least the probability 1 less
/// `undecided`. Whether it is over is itself a question.
pub fn plays_end()
    ensures posed { (q : Query) (lost : List Bool) → IsQuery q → IsQuery (ending q lost) }
    ensures over { (q : Query) (lost : List Bool) (faces k s : ℕ) (greatest least : Strategy) → IsQuery q
        → IsStrategyOf q Max greatest → IsStrategyOf q Min least → s < states q →
        (faces * denominator q.game) ^ k
        ≤ reach (ending q lost) faces greatest least k [] s + faces ^ k * undecided q lost k s }
{}
