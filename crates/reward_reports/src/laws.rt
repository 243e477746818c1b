//! This module has the laws of reports on expected rewards. Each function does nothing: its contract is the law.

ghost use Rattle.std.specs.Prelude.{◌≡◌, ℕ, ◌<◌, false, length, Option};
ghost use Rattle.game_model.specs.Query.{IsQuery, states, is_dead};
ghost use Rattle.reward_formula.specs.declared.formula.RewardBound.{RewardBound};
ghost use Rattle.reward_check.specs.Certificates.{Certificate};
ghost use Rattle.reward_check.specs.Parts.{IsAccepted};
ghost use Rattle.reward_units.specs.Exact.{ExactRewards, AreRounded, HaveValues};
ghost use Rattle.verdicts.specs.declared.verdict.Verdict.TheVariants.{Undecided};
ghost use Rattle.reward_verdicts.specs.Truth.{IsUpTo};
ghost use Rattle.reward_verdicts.specs.Verdict.{reward_verdict_of};
ghost use Rattle.reward_reports.specs.Printed.{lower_of, upper_of};
ghost use Rattle.reward_reports.specs.Reports.{IsLeftOpen};

use expected_rewards::laws::bounds_are_in_order;
use reward_check::laws::accepted_rewards_are_sound;
use reward_units::laws::caps_change_nothing;

/// A threshold is undecided only if its bounds leave it open: a value between them meets it, and another one does not.
pub fn undecided_rewards_are_left_open()
    ensures { (bound : RewardBound) (places : ℕ) (lower upper : Option ℕ)
        → reward_verdict_of bound places lower upper ≡ Undecided → IsLeftOpen bound places lower upper }
{}

/// The lower value of an accepted certificate is at most the upper one. If it is infinite, no upper value is claimed.
pub fn accepted_bounds_are_in_order()
    ensures { (c : Certificate) (exact : ExactRewards) (places : ℕ) → IsQuery c.question
        → ((s : ℕ) → s < states c.question → is_dead c.question s ≡ false)
        → length c.bounded ≡ states c.question → AreRounded c exact places → HaveValues c → IsAccepted c
        → (s : ℕ) → s < states c.question → IsUpTo (lower_of c s) (upper_of c s) }
{
    caps_change_nothing();
    accepted_rewards_are_sound();
    bounds_are_in_order();
}
