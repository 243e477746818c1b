//! The bounds of an expected reward give a verdict on a threshold.

ghost use Rattle.std.specs.Prelude.{◌≡◌, ◌≤◌};
ghost use Rattle.reward_units.specs.Units.{most_places};
ghost use Rattle.reward_values.specs.Values.{IsValue};
ghost use Rattle.reward_verdicts.specs.Verdict.{reaches, exceeds, reward_verdict_of};

use reward_formula::RewardBound;
use reward_units::{units_above, units_below};
use rewards_reader::Amount;
use verdicts::{Verdict, verdict_by};

/// Returns the verdict of a lower and an upper bound, in units of so many places, on a bound of the value between them.
/// A lower bound of `None` is infinite. An upper bound of `None` is missing.
///
/// | Bound | `Yes` if | `No` if |
/// |---|---|---|
/// | `>= p` | the lower one is at least `p` | the upper one is below `p` |
/// | `> p` | the lower one is above `p` | the upper one is at most `p` |
/// | `<= p` | the upper one is at most `p` | the lower one is above `p` |
/// | `< p` | the upper one is below `p` | the lower one is at least `p` |
///
/// The first of these that holds counts. Infinite is above every number, and a missing upper bound is neither below nor
/// at most any. If neither holds, the verdict is `Undecided`. For a bound that asks for a value it is `Bracket`.
pub fn settle_reward(
    bound: &RewardBound,
    places: u32,
    lower: Option<u64>,
    upper: Option<u64>,
) -> Verdict
    requires places { places ≤ most_places }
    requires lower { IsValue lower }
    requires upper { IsValue upper }
    ensures { result ≡ reward_verdict_of bound.now places lower upper }
{
    match bound {
        RewardBound::AtLeast(p) => verdict_by(
            reaches(p, places, lower),
            !reaches(p, places, upper),
        ),
        RewardBound::Above(p) => verdict_by(exceeds(p, places, lower), !exceeds(p, places, upper)),
        RewardBound::AtMost(p) => verdict_by(!exceeds(p, places, upper), exceeds(p, places, lower)),
        RewardBound::Below(p) => verdict_by(!reaches(p, places, upper), reaches(p, places, lower)),
        RewardBound::AskMax | RewardBound::AskMin => Verdict::Bracket,
    }
}

// Returns whether a value is at least the threshold.
fn reaches(threshold: &Amount, places: u32, value: Option<u64>) -> bool
    requires places { places ≤ most_places }
    requires value { IsValue value }
    ensures { result ≡ reaches threshold.now places value }
{
    match value {
        Some(units) => units_above(threshold.num(), threshold.den(), places) <= units,
        None => true,
    }
}

// Returns whether a value is above the threshold.
fn exceeds(threshold: &Amount, places: u32, value: Option<u64>) -> bool
    requires places { places ≤ most_places }
    requires value { IsValue value }
    ensures { result ≡ exceeds threshold.now places value }
{
    match value {
        Some(units) => units_below(threshold.num(), threshold.den(), places) < units,
        None => true,
    }
}
