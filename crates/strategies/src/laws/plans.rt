//! This module has the laws of plans: what they do against every strategy.

ghost use Rattle.std.specs.Prelude.{ℕ, ◌*◌, ◌^◌, ◌<◌, ◌≤◌, ◌-◌, List, Option};
ghost use Rattle.game_model.specs.Query.{Query, IsQuery, states};
ghost use Rattle.game_model.specs.Values.{denominator};
ghost use Rattle.game_model.specs.Ranks.{ReachesUnder};
ghost use Rattle.game_model.specs.Plans.{numerator_under};
ghost use Rattle.game_model.specs.Bounds.{IsNear, IsHigh};
ghost use Rattle.game_model.specs.Limits.{unit};
ghost use Rattle.strategies.specs.Strategies.{HoldsAgainstAll, ReachesAgainstAll, AvoidsAgainstAll, IsAvoidedAgainstAll};
ghost use Rattle.game_model.specs.declared.game.Side.TheVariants.{Min};

/// If a plan of the minimiser holds the game under it to a table, it holds every strategy to that table.
pub fn plans_hold_every_strategy()
    ensures { (q : Query) (plan : List (Option ℕ)) (table : ℕ → ℕ) → IsQuery q →
        ((k s : ℕ) → s < states q → unit * numerator_under q Min plan k s ≤ table s * denominator q.game ^ k)
        → HoldsAgainstAll q plan table }
{}

/// If a plan of the maximiser reaches a table in the game under it, it reaches that table against every strategy.
pub fn plans_reach_against_every_strategy()
    ensures { (q : Query) (plan : List (Option ℕ)) (table : ℕ → ℕ) → IsQuery q → ReachesUnder q plan table
        → ReachesAgainstAll q plan table }
{}

/// A plan that holds every strategy to a table avoids goals with at least 1 less the table. With a plan that reaches a
/// table goals are avoided with at most 1 less the table, and any 1/m. So strategies for `G` are those of its dual.
pub fn plans_avoid_goals()
    ensures avoids { (q : Query) (plan : List (Option ℕ)) (table : ℕ → ℕ) → HoldsAgainstAll q plan table
        → AvoidsAgainstAll q plan (λ s. unit - table s) }
    ensures avoided { (q : Query) (plan : List (Option ℕ)) (table : ℕ → ℕ) → ReachesAgainstAll q plan table
        → IsAvoidedAgainstAll q plan (λ s. unit - table s) }
{}

/// If a plan holds every strategy to a table, each entry is at least every k-step value. If a plan reaches a table, the
/// k-step values come near to it.
pub fn plans_bound_values()
    ensures high { (q : Query) (plan : List (Option ℕ)) (table : ℕ → ℕ) → IsQuery q → HoldsAgainstAll q plan table
        → IsHigh q table }
    ensures near { (q : Query) (plan : List (Option ℕ)) (table : ℕ → ℕ) → IsQuery q → ReachesAgainstAll q plan table
        → IsNear q table }
{}
