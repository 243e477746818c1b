//! This module has the laws of verdicts and reports. Each function does nothing of its own: its contract is the law.

ghost use Rattle.std.specs.Prelude.{◌≡◌, ◌<◌, ◌≤◌, ◌+◌, ◌-◌, ◌*◌, ℕ, true, List, All, Option};
ghost use Rattle.game_model.specs.Query.{Query, IsQuery, states};
ghost use Rattle.game_model.specs.Limits.{unit};
ghost use Rattle.game_model.specs.Bounds.{IsHigh, Reaches};
ghost use Rattle.game_model.specs.Ranks.{ReachesUnder};
ghost use Rattle.formula_reader.specs.declared.formula.Bound.{Bound};
ghost use Rattle.rpatl_syntax.specs.Dual.{IsAtMostOne, dual_bound};
ghost use Rattle.verdicts.specs.declared.report.ReportLine.{ReportLine};
ghost use Rattle.verdicts.specs.declared.verdict.Verdict.TheVariants.{Yes, No, Undecided};
ghost use Rattle.verdicts.specs.Exact.{IsRight};
ghost use Rattle.verdicts.specs.Open.{LeavesOpen};
ghost use Rattle.verdicts.specs.Report.{IsLine, report};
ghost use Rattle.verdicts.specs.Truth.{IsTrueOf, IsFalseOf};
ghost use Rattle.verdicts.specs.Verdict.{verdict_of, is_settling};

use game_laws::laws;

/// A verdict over sound bounds is true. The values of the state have to reach the lower bound, and no k-step value may
/// be above the upper bound. Then the bound holds of the value if the verdict is yes, and fails if it is no.
pub fn verdicts_are_true()
    ensures yes { (q : Query) (lower : ℕ) (upper : ℕ → ℕ) (bound : Bound) (s : ℕ) → IsQuery q → Reaches q lower unit s
        → IsHigh q upper → s < states q →
        verdict_of bound lower (upper s) ≡ Yes → IsTrueOf q bound s }
    ensures no { (q : Query) (lower : ℕ) (upper : ℕ → ℕ) (bound : Bound) (s : ℕ) → IsQuery q → Reaches q lower unit s
        → IsHigh q upper → s < states q →
        verdict_of bound lower (upper s) ≡ No → IsFalseOf q bound s }
{
    laws::high_tables_are_not_exceeded();
    laws::high_tables_are_not_reached();
}

/// A verdict over bounds of a fraction is true: the bound holds of the fraction if the verdict is yes, and fails if it
/// is no.
pub fn verdicts_of_fractions_are_right()
    ensures { (bound : Bound) (n d lower upper : ℕ) → 1 ≤ d → lower * d ≤ unit * n → unit * n ≤ upper * d
        → IsRight bound n d (verdict_of bound lower upper) }
{}

/// The verdict of a bound on 1 less the value is the verdict of the dual bound on the value.
pub fn mirrored_verdicts_are_those_of_the_dual()
    ensures { (bound : Bound) (lower upper : ℕ) → IsAtMostOne bound → lower ≤ unit → upper ≤ unit
        → verdict_of bound (unit - upper) (unit - lower) ≡ verdict_of (dual_bound bound) lower upper }
{}

/// No bound both holds and fails of a value.
pub fn no_bound_holds_and_fails()
    ensures { (q : Query) (bound : Bound) (s : ℕ) → IsFalseOf q bound s → ¬ IsTrueOf q bound s }
{}

/// If the maximiser reaches a value with a plan, less any 1/m, the k-step values of its state come as near to it as one
/// likes.
pub fn planned_values_are_reached()
    ensures { (q : Query) (plan : List (Option ℕ)) (value : ℕ → ℕ) (s : ℕ) → ReachesUnder q plan value → s < states q
        → Reaches q (value s) unit s }
{
    laws::plans_reach_at_most_the_value();
}

/// No two lists of lines have the same report.
pub fn reports_have_one_reading()
    ensures { (lines others : List ReportLine) → All IsLine lines → All IsLine others → report lines ≡ report others
        → lines ≡ others }
{
    plan_text::laws::fixed_text_has_one_reading();
}

/// A threshold is undecided only if its bounds leave it open, and then wider bounds leave it open.
pub fn undecided_thresholds_are_left_open()
    ensures here { (bound : Bound) (lower upper : ℕ) → verdict_of bound lower upper ≡ Undecided
        → LeavesOpen bound lower upper 1 0 }
    ensures wider { (bound : Bound) (lower upper n m d r : ℕ) → 1 ≤ d → n ≤ (lower + r) * d → upper * d ≤ m + r * d
        → LeavesOpen bound lower upper 1 0 → LeavesOpen bound n m d r }
{}

/// If bounds settle a threshold, nearer bounds settle it.
pub fn settled_thresholds_stay_settled()
    ensures { (bound : Bound) (lower higher upper less : ℕ) → lower ≤ higher → less ≤ upper
        → is_settling (verdict_of bound lower upper) ≡ true → is_settling (verdict_of bound higher less) ≡ true }
{}
