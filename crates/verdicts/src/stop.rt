//! This module has the rule by which a run may stop when its bound is settled.

ghost use Rattle.std.specs.Prelude.{◌≡◌, ◌≤◌, not};
ghost use Rattle.game_model.specs.Limits.{unit};
ghost use Rattle.verdicts.specs.Verdict.{verdict_of, is_settling, is_asking};
ghost use Rattle.verdicts.specs.Stop.{bound_of, IsRuleOf, IsStopRule};

use formula_reader::Bound;

/// A rule has a bound, and a closure that says whether a lower and an upper bound of a value settle it.
///
/// `IsStopRule` is the promise that the closure says so: [`StopRule::of_bound`] ensures it, and what takes a rule
/// requires it.
#[derive(Drop)]
pub struct StopRule<F: Fn(u64, u64) -> bool> {
    bound: Bound,
    rule: F,
}

impl<F: Fn(u64, u64) -> bool> StopRule<F> {
    /// Makes the rule of a bound from a closure that may be called on all values and is true exactly if they settle the
    /// bound.
    pub fn of_bound(bound: Bound, rule: F) -> StopRule<F>
        requires { IsRuleOf F.Fn bound rule }
        ensures bound { bound_of result ≡ bound }
        ensures kept { IsStopRule F.Fn result }
    {
        StopRule { bound, rule }
    }

    /// Returns whether these bounds of a value settle the bound.
    pub fn asks(&self, lower: u64, upper: u64) -> bool
        requires kept { IsStopRule F.Fn self.now }
        requires lower { lower ≤ unit }
        requires upper { upper ≤ unit }
        ensures { result ≡ is_settling (verdict_of (bound_of self.now) lower upper) }
    {
        (self.rule)(lower, upper)
    }

    /// Returns whether some values may settle the bound: it is a threshold, and does not ask for a value.
    pub fn may_settle(&self) -> bool
        ensures { result ≡ not (is_asking (bound_of self.now)) }
    {
        match self.bound {
            Bound::AtLeast(_) | Bound::Above(_) | Bound::AtMost(_) | Bound::Below(_) => true,
            Bound::AskMax | Bound::AskMin => false,
        }
    }

    /// Returns the bound.
    pub fn bound(&self) -> Bound
        ensures { result ≡ bound_of self.now }
    {
        self.bound
    }
}
