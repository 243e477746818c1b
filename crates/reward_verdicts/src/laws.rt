//! This module has the laws of verdicts and reports on expected rewards. Each function does nothing of its own: its
//! contract is the law.

ghost use Rattle.std.specs.Prelude.{◌≡◌, ℕ, true, List, All, Option};
ghost use Rattle.fractions.specs.Fraction.{Fraction};
ghost use Rattle.reward_formula.specs.declared.formula.RewardBound.{RewardBound};
ghost use Rattle.verdicts.specs.Verdict.{is_settling};
ghost use Rattle.reward_verdicts.specs.declared.report.RewardLine.{RewardLine};
ghost use Rattle.reward_verdicts.specs.Report.{IsRewardLine, reward_report};
ghost use Rattle.reward_verdicts.specs.Truth.{IsBetween, IsRight, IsUpTo};
ghost use Rattle.reward_verdicts.specs.Verdict.{reward_verdict_of};

use reward_values::laws::values_have_one_reading;

/// A verdict is right for every value between the bounds: the bound holds of the value if the verdict is yes, and fails
/// if it is no.
pub fn reward_verdicts_are_right()
    ensures { (bound : RewardBound) (places : ℕ) (lower upper : Option ℕ) (value : Option Fraction)
        → IsBetween places lower upper value → IsRight bound value (reward_verdict_of bound places lower upper) }
{}

/// If bounds settle a threshold, nearer bounds settle it.
pub fn settled_thresholds_stay_settled()
    ensures { (bound : RewardBound) (places : ℕ) (lower higher upper less : Option ℕ) → IsUpTo lower higher
        → IsUpTo less upper → is_settling (reward_verdict_of bound places lower upper) ≡ true
        → is_settling (reward_verdict_of bound places higher less) ≡ true }
{}

/// No two lists of lines of the same places have the same report.
pub fn reward_reports_have_one_reading()
    ensures { (places : ℕ) (lines others : List RewardLine) → All IsRewardLine lines → All IsRewardLine others
        → reward_report places lines ≡ reward_report places others → lines ≡ others }
{
    values_have_one_reading();
}
