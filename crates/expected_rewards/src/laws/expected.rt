//! This module has the laws of what two strategies are expected to collect.

ghost use Rattle.std.specs.Prelude.{◌≡◌, ℕ, suc, ◌*◌, ◌<◌, ◌≤◌, true, List, [], Bool, Option};
ghost use Rattle.game_model.specs.Query.{Query, IsQuery, states};
ghost use Rattle.game_model.specs.Values.{denominator};
ghost use Rattle.game_model.specs.declared.game.Side.TheVariants.{Max, Min};
ghost use Rattle.strategies.specs.Strategies.{Strategy, IsStrategyOf, by_plan};
ghost use Rattle.expected_rewards.specs.Rewards.{Rewards, expected};
ghost use Rattle.expected_rewards.specs.Collected.{AreCollected};
ghost use Rattle.expected_rewards.specs.Tables.{is_finite};
ghost use Rattle.expected_rewards.specs.Promises.{PaysAtLeast, IsSureFrom, PaysFrom};

/// Over all the ways in which the k turns of a play can go, the sum of what is collected before a goal is what is
/// expected.
pub fn expected_counts_courses()
    ensures { (q : Query) (rewards : Rewards) (faces k s : ℕ) (greatest least : Strategy) → IsQuery q
        → IsStrategyOf q Max greatest → IsStrategyOf q Min least → s < states q →
        AreCollected q rewards faces greatest least k s }
{}

/// What is expected of k turns never falls when k grows.
pub fn expected_rises()
    ensures { (q : Query) (rewards : Rewards) (faces k s : ℕ) (greatest least : Strategy) →
        faces * denominator q.game * expected q rewards faces greatest least k [] s
        ≤ 1 * expected q rewards faces greatest least (suc k) [] s }
{}

/// What is expected grows with the rewards, in whatever units: `a` is what 1 is in the units of the second rewards, and
/// `b` is what 1 is in those of the first. So rewards that are rounded up give at least the exact expectation, and
/// rewards that are rounded down give at most that.
pub fn expected_grows()
    ensures { (q : Query) (rewards more : Rewards) (a b faces k s : ℕ) (greatest least : Strategy)
        → ((t c : ℕ) → a * rewards t c ≤ b * more t c) →
        a * expected q rewards faces greatest least k [] s ≤ b * expected q more faces greatest least k [] s }
{}

/// If a plan pays a lower table, it is paid, less any 1/m, against each strategy with which it reaches a goal almost
/// surely.
pub fn sure_plays_are_paid()
    ensures { (q : Query) (rewards : Rewards) (finite : List Bool) (plan : List (Option ℕ)) (lower : ℕ → ℕ) → IsQuery q
        → PaysAtLeast q rewards finite plan lower → (faces s : ℕ) (opponent : Strategy) → IsStrategyOf q Min opponent
        → s < states q → is_finite finite s ≡ true → IsSureFrom q faces (by_plan q plan) opponent s →
        PaysFrom q rewards faces (by_plan q plan) opponent s (lower s) }
{}
