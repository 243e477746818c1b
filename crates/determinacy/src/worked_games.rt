//! This module has values that are counted by hand: those of a game with both players, and one that no horizon reaches.
//!
//! No function here does anything: its contract is the example.

ghost use Rattle.std.specs.Prelude.{◌≡◌, ℕ, ◌+◌, ◌*◌, ◌^◌, ◌<◌, ◌≤◌, [], slice_index};
ghost use Rattle.game_model.specs.Bounds.{IsNear, Reaches};
ghost use Rattle.game_model.specs.Limits.{unit};
ghost use Rattle.game_model.specs.Query.{states};
ghost use Rattle.game_model.specs.Values.{denominator, numerator};
ghost use Rattle.strategies.specs.Strategies.{reach, HoldsOver, ReachesOver};
ghost use Rattle.determinacy.specs.Exact.{HasValues};
ghost use Rattle.strategies.specs.worked_games.Games.{give_and_take, lingering};
ghost use Rattle.strategies.specs.worked_games.Players.{first_choice};
ghost use Rattle.determinacy.specs.Thirds.{bold_plan, harsh_plan, thirds};

use crate::laws::{bounds_lie_on_either_side, values_decide_thresholds};

/// In the game of give and take the value is 2/3 if the maximiser moves, and 1/3 if the minimiser moves. Being bold
/// reaches it, 1/2 + 1/2 * 1/3, and being harsh holds it, 1/2 * 2/3. There is no other value.
pub fn values_are_thirds()
    ensures reached { ReachesOver 3 give_and_take bold_plan (slice_index thirds) }
    ensures held { HoldsOver 3 give_and_take harsh_plan (slice_index thirds) }
    ensures one { (v : HasValues give_and_take) (s : ℕ) → s < states give_and_take
        → v.value s * 3 ≡ slice_index thirds s * v.top }
{
    bounds_lie_on_either_side();
}

/// A maximiser that stays at state 0 for ever never comes to the goal. One that tries comes to it within k turns with
/// the probability 1 - 1/2^k, and no strategy does better. So the value is 1, and no horizon reaches it.
pub fn no_horizon_reaches_the_value()
    ensures never { (k : ℕ) → reach lingering 1 first_choice first_choice k [] 0 ≡ 0 }
    ensures all { denominator lingering.game ≡ 2 }
    ensures less { (k : ℕ) → numerator lingering k 0 + 1 ≡ 2 ^ k }
    ensures near { IsNear lingering (λ s. unit) }
    ensures reached { Reaches lingering 1 1 0 }
    ensures value { (v : HasValues lingering) → v.value 0 ≡ v.top }
{
    values_decide_thresholds();
}
