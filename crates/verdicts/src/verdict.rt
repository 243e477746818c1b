//! The bounds of a value give a verdict on a threshold.

ghost use Rattle.std.specs.Prelude.{◌≡◌, ◌≤◌};
ghost use Rattle.game_model.specs.Limits.{unit};
ghost use Rattle.verdicts.specs.Verdict.{reaches, exceeds, verdict_by, verdict_of};

use formula_reader::Bound;
use fractions::Frac;
use game_model::UNIT;

/// The bounds say this of a formula at a state.
#[derive(Clone, Copy, Debug, PartialEq, Eq)]
pub enum Verdict {
    /// The bound on the probability holds: `True` is printed.
    Yes,
    /// The bound on the probability fails: `False` is printed.
    No,
    /// The bracket does not settle the bound.
    Undecided,
    /// The formula asks for a value, and the bracket is the answer.
    Bracket,
}

impl Verdict {
    ghost use Rattle.verdicts.specs.Verdict.{is_yes, is_no, is_undecided, is_settling};

    /// Returns whether the bound holds.
    pub fn is_yes(self) -> bool
        ensures { result ≡ is_yes self }
    {
        matches!(self, Verdict::Yes)
    }

    /// Returns whether the bound fails.
    pub fn is_no(self) -> bool
        ensures { result ≡ is_no self }
    {
        matches!(self, Verdict::No)
    }

    /// Returns whether a threshold is left open.
    pub fn is_undecided(self) -> bool
        ensures { result ≡ is_undecided self }
    {
        matches!(self, Verdict::Undecided)
    }

    /// Returns whether a threshold is settled: the bound holds or fails.
    pub fn is_settling(self) -> bool
        ensures { result ≡ is_settling self }
    {
        matches!(self, Verdict::Yes | Verdict::No)
    }
}

/// Returns the verdict of a lower and an upper bound, in units, on a bound of the value between them.
///
/// | Bound | `Yes` if | `No` if |
/// |---|---|---|
/// | `>= p` | the lower one is at least `p` | the upper one is below `p` |
/// | `> p` | the lower one is above `p` | the upper one is at most `p` |
/// | `<= p` | the upper one is at most `p` | the lower one is above `p` |
/// | `< p` | the upper one is below `p` | the lower one is at least `p` |
///
/// The first of these that holds counts. If neither holds, the verdict is `Undecided`. For a bound that asks for a
/// value it is `Bracket`.
pub fn settle(bound: &Bound, lower: u64, upper: u64) -> Verdict
    requires lower { lower ≤ unit }
    requires upper { upper ≤ unit }
    ensures { result ≡ verdict_of bound.now lower upper }
{
    match bound {
        Bound::AtLeast(p) => verdict_by(reaches(p, lower), !reaches(p, upper)),
        Bound::Above(p) => verdict_by(exceeds(p, lower), !exceeds(p, upper)),
        Bound::AtMost(p) => verdict_by(!exceeds(p, upper), exceeds(p, lower)),
        Bound::Below(p) => verdict_by(!reaches(p, upper), reaches(p, lower)),
        Bound::AskMax | Bound::AskMin => Verdict::Bracket,
    }
}

/// Returns the verdict of two tests, of whether a bound holds and of whether it fails. The first one that holds counts.
pub fn verdict_by(holds: bool, fails: bool) -> Verdict
    ensures { result ≡ verdict_by holds fails }
{
    if holds {
        Verdict::Yes
    } else if fails {
        Verdict::No
    } else {
        Verdict::Undecided
    }
}

// Returns whether this many units are at least the threshold.
fn reaches(threshold: &Frac, units: u64) -> bool
    requires { units ≤ unit }
    ensures { result ≡ reaches threshold.now units }
{
    threshold.num() * u128::from(UNIT) <= u128::from(units) * threshold.den()
}

// Returns whether this many units are above the threshold.
fn exceeds(threshold: &Frac, units: u64) -> bool
    requires { units ≤ unit }
    ensures { result ≡ exceeds threshold.now units }
{
    threshold.num() * u128::from(UNIT) < u128::from(units) * threshold.den()
}
