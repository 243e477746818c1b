//! These are laws of rewards in units. Each function does nothing; its contract is the law.

ghost use Rattle.std.specs.Prelude.{◌≡◌, ℕ, ◌+◌, ◌*◌, ◌^◌, ◌<◌, ◌≤◌, ◌↔◌, false, length, List, [], Option};
ghost use Rattle.game_model.specs.Game.{choices_of};
ghost use Rattle.game_model.specs.Limits.{unit};
ghost use Rattle.game_model.specs.Query.{Query, IsQuery, states, is_dead};
ghost use Rattle.fractions.specs.Fraction.{Fraction, SameValue};
ghost use Rattle.strategies.specs.Strategies.{Strategy};
ghost use Rattle.expected_rewards.specs.Rewards.{Rewards, expected};
ghost use Rattle.rewards_reader.specs.Amounts.{AreAmounts};
ghost use Rattle.reward_check.specs.Certificates.{Certificate, IsSound};
ghost use Rattle.reward_check.specs.Parts.{IsAccepted};
ghost use Rattle.reward_units.specs.Units.{most_places, most_units, units_below, units_above};
ghost use Rattle.reward_units.specs.Exact.{ExactRewards, HaveDenominators, ArePaid, AreRounded, HaveValues};
ghost use Rattle.reward_units.specs.Exact.{uncapped, exact_of};
ghost use Rattle.reward_units.specs.Rounded.{exact_in};

use crate::limits::{MOST_PLACES, MOST_UNITS};
use expected_rewards::laws::expected_grows;
use reward_check::laws::accepted_rewards_are_sound;

/// The limits of the code are the limits of the definitions.
pub fn limits()
    ensures places { MOST_PLACES ≡ most_places }
    ensures units { MOST_UNITS ≡ most_units }
{}

/// Units that are rounded down are at most the reward. Units that are rounded up are at least the reward, unless they
/// are too many for a value. They are at most one unit apart, and they are equal if the reward is a whole number of
/// units.
pub fn units_bracket_rewards()
    ensures below { (reward : Fraction) (places : ℕ) →
        units_below reward places * reward.den ≤ reward.num * 10 ^ places }
    ensures above { (reward : Fraction) (places : ℕ) → 1 ≤ reward.den → units_above reward places ≤ unit →
        reward.num * 10 ^ places ≤ units_above reward places * reward.den }
    ensures order { (reward : Fraction) (places : ℕ) → units_below reward places ≤ units_above reward places }
    ensures near { (reward : Fraction) (places : ℕ) → units_above reward places ≤ units_below reward places + 1 }
    ensures equal { (reward : Fraction) (places units : ℕ) → 1 ≤ reward.den
        → reward.num * 10 ^ places ≡ units * reward.den → units_below reward places ≡ units_above reward places }
{}

/// Fractions of the same value have the same units, whether in lowest terms or not.
pub fn units_go_by_value()
    ensures below { (f g : Fraction) (places : ℕ) → 1 ≤ f.den → 1 ≤ g.den → SameValue f g →
        units_below f places ≡ units_below g places }
    ensures above { (f g : Fraction) (places : ℕ) → 1 ≤ f.den → 1 ≤ g.den → SameValue f g →
        units_above f places ≡ units_above g places }
{}

/// Exact rewards have a common denominator, over which each turn is paid a whole number.
pub fn exact_rewards_have_a_denominator()
    ensures { (q : Query) (exact : ExactRewards) → HaveDenominators q exact →
        (den : ℕ) × (whole : Rewards) × ArePaid q exact den whole }
{}

/// The rewards of a file have a common denominator, since each entry of their table is an amount. So the laws that ask
/// for one speak of the rewards of every file.
pub fn rewards_of_a_file_have_a_denominator()
    ensures { (q : Query) (table : List (Option Fraction)) → AreAmounts table →
        (den : ℕ) × (whole : Rewards) × ArePaid q (exact_in q.game table) den whole }
{}

/// Rewards that are all multiplied by a number give expectations that are multiplied by it.
pub fn expected_scales()
    ensures { (q : Query) (rewards : Rewards) (a faces k s : ℕ) (greatest least : Strategy) →
        expected q (λ t c. a * rewards t c) faces greatest least k [] s
        ≡ a * expected q rewards faces greatest least k [] s }
{
    expected_grows();
}

/// A certificate is accepted over the units of a table exactly if it is accepted over all units, however many: so a
/// choice that pays more than 10^15 units pays every lower value, and no upper value covers it.
pub fn caps_change_nothing()
    ensures { (c : Certificate) (exact : ExactRewards) (places : ℕ) → IsQuery c.question → AreRounded c exact places
        → HaveValues c → IsAccepted c ↔ IsAccepted (uncapped c exact places) }
{}

/// A sound certificate over rounded rewards is sound over the exact ones, if no choice pays more than 10^15 units when
/// its rewards are rounded up. `exact_of` has the same plans, and the same values in finer units, so nothing is rounded
/// any more. Nothing is said about how near the values come to what the exact rewards are worth.
pub fn sound_bounds_are_exact()
    ensures { (c : Certificate) (exact : ExactRewards) (places den : ℕ) (whole : Rewards) → IsQuery c.question
        → ArePaid c.question exact den whole → AreRounded c exact places
        → ((s k : ℕ) → s < states c.question → k < length (choices_of c.question.game s) → c.high s k ≤ unit)
        → IsSound c → IsSound (exact_of c places den whole) }
{}

/// An accepted certificate over rounded rewards is sound over the exact ones, however great these are. It has to be
/// accepted, since a certificate can be sound although a play comes, with a small probability, from a state with an
/// upper value to a choice that pays more than 10^15 units. The rounded rewards then count too little.
pub fn accepted_bounds_are_exact()
    ensures { (c : Certificate) (exact : ExactRewards) (places den : ℕ) (whole : Rewards) → IsQuery c.question
        → ((s : ℕ) → s < states c.question → is_dead c.question s ≡ false)
        → length c.bounded ≡ states c.question → ArePaid c.question exact den whole
        → AreRounded c exact places → HaveValues c → IsAccepted c → IsSound (exact_of c places den whole) }
{
    accepted_rewards_are_sound();
}
