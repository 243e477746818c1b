//! This module counts by hand what is expected in games that are small enough.
//!
//! No function here does anything: its contract is the example.

ghost use Rattle.std.specs.Prelude.{◌≡◌, ℕ, ◌+◌, ◌*◌, ◌^◌, [], ◌∷◌};
ghost use Rattle.game_model.specs.Values.{denominator};
ghost use Rattle.strategies.specs.Strategies.{reach};
ghost use Rattle.strategies.specs.worked_games.Games.{give_and_take, lingering};
ghost use Rattle.strategies.specs.worked_games.Players.{first_choice, alternating, answering, harsh, tossing};
ghost use Rattle.expected_rewards.specs.Rewards.{expected};
ghost use Rattle.expected_rewards.specs.Collected.{collected};
ghost use Rattle.expected_rewards.specs.Tables.{IsUpperTable, IsLowerTable};
ghost use Rattle.expected_rewards.specs.Paying.{trying_costs, trying, waiting, wages, turn, all_finite};
ghost use Rattle.expected_rewards.specs.Paying.{try_plan, stay_plan, two};

/// A maximiser that tries until it is done pays 1 for each try, and half of the tries are the last: 2 - 2/2^k within k
/// turns, which go in 2^k ways.
pub fn tries_are_counted()
    ensures ways { denominator lingering.game ≡ 2 }
    ensures paid { (k : ℕ) → expected lingering trying_costs 1 trying first_choice k [] 0 + 2 ≡ 2 * 2 ^ k }
{}

/// A maximiser that stays pays nothing, and never comes to the goal.
pub fn staying_costs_nothing()
    ensures paid { (k : ℕ) → expected lingering trying_costs 1 first_choice first_choice k [] 0 ≡ 0 }
    ensures reached { (k : ℕ) → reach lingering 1 first_choice first_choice k [] 0 ≡ 0 }
{}

/// Three turns of give and take go in 64 ways, if the maximiser alternates and the minimiser answers. In 16 and 16 of
/// them the maximiser is careful, the minimiser harsh and the maximiser bold, which pays 1 + 0 + 3. In 32 the maximiser
/// has lost after two turns, which pay 1 + 0, and the turn at the dead state pays nothing. So 160/64 = 5/2 are
/// expected.
#[tactic(auto, unfolding(crate::specs::Rewards::expected))]
pub fn three_turns_are_paid()
    ensures careful { collected give_and_take wages (turn 0 1 ∷ turn 1 1 ∷ turn 0 0 ∷ []) ≡ 4 }
    ensures lost { collected give_and_take wages (turn 0 1 ∷ turn 1 1 ∷ turn 3 0 ∷ []) ≡ 1 }
    ensures all { expected give_and_take wages 1 alternating answering 3 [] 0 ≡ 16 * 4 + 16 * 4 + 32 * 1 }
{}

/// A maximiser that throws a die of two faces, and is bold if it shows 0, is paid 3 or 1: 2 on average, in 8 ways.
#[tactic(auto, unfolding(crate::specs::Rewards::expected))]
pub fn one_throw_is_paid()
    ensures { expected give_and_take wages 2 tossing harsh 1 [] 0 ≡ 8 * 2 }
{}

/// Waiting is worth 2 to the minimiser: the table of 2 is an upper table with the plan to try, and it is a lower table.
/// The table of 0 is an upper table with the plan to stay, with which the play does not end. So an upper table says too
/// little if its plan does not end the play.
pub fn waiting_costs_two()
    ensures upper { IsUpperTable waiting trying_costs all_finite try_plan two }
    ensures lower { IsLowerTable waiting trying_costs all_finite [] two }
    ensures staying { IsUpperTable waiting trying_costs all_finite stay_plan (λ s. 0) }
{}
