//! This module has the laws of what tables of rewards promise.

ghost use Rattle.std.specs.Prelude.{◌≡◌, ℕ, ◌<◌, ◌≤◌, true, List, Bool, Option};
ghost use Rattle.game_model.specs.Limits.{unit};
ghost use Rattle.game_model.specs.Query.{Query, IsQuery, states};
ghost use Rattle.strategies.specs.Strategies.{ReachesAgainstAll};
ghost use Rattle.expected_rewards.specs.Rewards.{Rewards};
ghost use Rattle.expected_rewards.specs.Turned.{turned};
ghost use Rattle.expected_rewards.specs.Tables.{is_finite, IsUpperTable, IsLowerTable, AreAwayRanks};
ghost use Rattle.expected_rewards.specs.Promises.{PaysAtMost, EndsSurely, PaysAtLeast, MissesAlways, AreRewardBounds};

/// If the minimiser plays its replies, no strategy of the maximiser is expected to collect more than an upper table,
/// however many turns are made.
pub fn upper_tables_hold()
    ensures { (q : Query) (rewards : Rewards) (finite : List Bool) (replies : List (Option ℕ)) (upper : ℕ → ℕ) →
        IsQuery q → IsUpperTable q rewards finite replies upper → PaysAtMost q rewards finite replies upper }
{}

/// The question with exchanged sides is a question. If the replies, as choices there, reach the unit from each finite
/// state, they end each play from it almost surely.
pub fn plans_end()
    ensures posed { (q : Query) → IsQuery q → IsQuery (turned q) }
    ensures ends { (q : Query) (finite : List Bool) (replies : List (Option ℕ)) (table : ℕ → ℕ) → IsQuery q
        → ReachesAgainstAll (turned q) replies table
        → ((s : ℕ) → s < states q → is_finite finite s ≡ true → table s ≡ unit) → EndsSurely q finite replies }
{}

/// If the maximiser plays its choices, what is expected from a finite state falls short of a lower table by at most a
/// multiple of the probability that no goal is reached, whatever the minimiser does.
pub fn lower_tables_are_paid()
    ensures { (q : Query) (rewards : Rewards) (finite : List Bool) (choices : List (Option ℕ)) (lower rank : ℕ → ℕ) →
        IsQuery q → IsLowerTable q rewards finite choices lower → AreAwayRanks q finite choices rank →
        PaysAtLeast q rewards finite choices lower }
{}

/// From a state that is not finite the maximiser's choices miss the goals with a probability that stays away from 0.
pub fn away_ranks_miss()
    ensures { (q : Query) (rewards : Rewards) (finite : List Bool) (choices : List (Option ℕ)) (lower rank : ℕ → ℕ) →
        IsQuery q → IsLowerTable q rewards finite choices lower → AreAwayRanks q finite choices rank →
        MissesAlways q finite choices }
{}

/// A state that has an upper bound is finite. Its lower bound is at most its upper bound, if the rewards of the lower
/// table are at most those of the upper table.
pub fn bounds_are_in_order()
    ensures finite { (q : Query) (low high : Rewards) (finite bounded : List Bool) (choices replies : List (Option ℕ))
        (lower upper : ℕ → ℕ) → IsQuery q
        → AreRewardBounds q low high finite bounded choices replies lower upper
        → (s : ℕ) → s < states q → is_finite bounded s ≡ true → is_finite finite s ≡ true }
    ensures order { (q : Query) (low high : Rewards) (finite bounded : List Bool) (choices replies : List (Option ℕ))
        (lower upper : ℕ → ℕ) → IsQuery q → ((t c : ℕ) → low t c ≤ high t c)
        → AreRewardBounds q low high finite bounded choices replies lower upper
        → (s : ℕ) → s < states q → is_finite bounded s ≡ true → lower s ≤ upper s }
{}
