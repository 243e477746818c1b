//! This module has the laws of the probability of reaching a goal within k steps.

ghost use Rattle.std.specs.Prelude.{ℕ, ◌+◌, ◌*◌, ◌^◌, ◌<◌, ◌≤◌, []};
ghost use Rattle.game_model.specs.Query.{Query, IsQuery, states};
ghost use Rattle.game_model.specs.Values.{denominator};
ghost use Rattle.strategies.specs.Strategies.{Strategy, IsStrategyOf, reach};
ghost use Rattle.strategies.specs.Plays.{AreWays};
ghost use Rattle.game_model.specs.declared.game.Side.TheVariants.{Max, Min};

/// Of all the ways in which the k turns of a play can go, `reach` gives the number that are won, and `avoid` the number
/// that are not. So `reach` over the number of all ways is the probability of reaching a goal within k steps.
pub fn reach_counts_ways()
    ensures { (q : Query) (faces k s : ℕ) (greatest least : Strategy) → IsQuery q → IsStrategyOf q Max greatest
        → IsStrategyOf q Min least → s < states q →
        AreWays q faces greatest least k s }
{}

/// The probability of reaching a goal within k steps never falls when k grows, and is at most 1.
pub fn reach_rises()
    ensures rises { (q : Query) (faces k s : ℕ) (greatest least : Strategy) →
        reach q faces greatest least k [] s * (faces * denominator q.game) ≤ reach q faces greatest least (k + 1) [] s }
    ensures within { (q : Query) (faces k s : ℕ) (greatest least : Strategy) → IsQuery q → IsStrategyOf q Max greatest
        → IsStrategyOf q Min least → s < states q →
        reach q faces greatest least k [] s ≤ (faces * denominator q.game) ^ k }
{}
