//! This module says how fast sweeps come near.

use crate::limits::ENOUGH;

/// A pace has the changes of the first and of the last of at most eight sweeps.
#[derive(Clone, Copy)]
pub struct Pace {
    pub first: f64,
    pub last: f64,
}

impl Pace {
    /// Returns whether the last sweep changed little enough.
    pub(crate) fn is_done(self) -> bool {
        self.last <= ENOUGH
    }

    /// Returns whether more than forty sweeps are left at this rate. The rate is the seventh root of the last change
    /// over the first. More are left if its fortieth power is greater than the factor by which the change must shrink.
    pub(crate) fn is_slow(self) -> bool {
        if !(self.last < self.first) {
            return true;
        }
        let ratio = self.last / self.first;
        let shrink = ENOUGH / self.last;
        eighth(fifth(ratio)) > eighth(shrink) / shrink
    }
}

/// Returns the eighth power.
fn eighth(x: f64) -> f64 {
    let second = x * x;
    let fourth = second * second;
    fourth * fourth
}

/// Returns the fifth power.
fn fifth(x: f64) -> f64 {
    let second = x * x;
    second * second * x
}
