//! Sweeps take rounded steps over whole units.

ghost use Rattle.std.specs.Prelude.{◌≡◌, ◌<◌, ◌≤◌, length, vec_len};
ghost use Rattle.float_games.specs.Units.{IsInUnits};

use crate::UNIT;
use crate::game::FloatGame;
use crate::sweeps::bounded;

/// A table is a lower or an upper bound.
#[derive(Clone, Copy, Debug, PartialEq, Eq)]
pub enum Bound {
    /// Each entry of a lower bound is at most what the maximiser's choice and each choice of the minimiser give.
    Lower,
    /// Each entry of an upper bound is at least what the minimiser's choice and each choice of the maximiser give.
    Upper,
}

/// A sweep of rounded steps counts the values that it changed and the choices that it looked at.
#[derive(Clone, Copy, Debug, PartialEq, Eq)]
pub struct Rounded {
    /// This many values changed.
    pub changed: usize,
    /// This many choices were looked at.
    pub looked: u64,
}

/// Sums of differences may be off by so much, since values are whole units.
const OFF: f64 = 0.3;

/// Values may be off by this many units, since floats of this size are an eighth apart.
const VALUE_OFF: f64 = 0.25;

/// This is 2^52 and half of it. If it is added to a float below 2^51 in size, the sum has no fraction.
const SHIFT: f64 = 6_755_399_441_055_744.0;

/// Rounds a value to whole units from 0 to the unit, on the side of the bound. A nearly whole value becomes that
/// number.
pub fn whole_units(bound: Bound, value: f64) -> f64
    ensures { IsInUnits result }
{
    bounded(match bound {
        Bound::Lower => floor_of(value + VALUE_OFF),
        Bound::Upper => ceil_of(value - VALUE_OFF),
    })
}

/// Returns the greatest whole number that is not above a float below 2^51 in size.
fn floor_of(x: f64) -> f64 {
    let whole = (x + SHIFT) - SHIFT;
    if whole > x { whole - 1.0 } else { whole }
}

/// Returns the least whole number that is not below a float below 2^51 in size.
fn ceil_of(x: f64) -> f64 {
    let whole = (x + SHIFT) - SHIFT;
    if whole < x { whole + 1.0 } else { whole }
}

impl FloatGame {
    ghost use Rattle.float_games.specs.Nodes.{nodes_of};

    /// Makes one sweep in place over whole units. An entry that is on the wrong side of what a choice gives moves
    /// there: down for a lower bound, and up for an upper bound. At nodes of the side that plays the policy only the
    /// policy's choice counts. At the other nodes each choice counts.
    pub fn sweep_rounded(&self, bound: Bound, values: &mut [f64], policy: &[u32]) -> Rounded
        requires values { length values.old ≡ nodes_of self.now }
        requires policy { length policy.now ≡ nodes_of self.now }
        ensures few { result.changed ≤ nodes_of self.now }
        ensures kept { result.changed ≡ 0 → values.new ≡ values.old }
    {
        let lower = bound == Bound::Lower;
        let choices = self.gives.len();
        let mut changed: usize = 0;
        let mut looked: u64 = 0;
        for node in 0..self.maximises.len() {
            let is_planned = self.maximises[node] == lower;
            let own = values[node];
            let planned = (policy[node] as usize).min(choices - 1);
            let first = if is_planned {
                planned
            } else {
                self.choice_starts[node] as usize
            };
            let end = if is_planned {
                planned + 1
            } else {
                self.choice_starts[node + 1] as usize
            };
            let mut worst = 0.0;
            for choice in first..end {
                let begin = self.edge_starts[choice];
                let stop = self.edge_starts[choice + 1];
                let mut sum = self.gives[choice] - self.leaves[choice] * own;
                for edge in begin..stop {
                    let there = values[self.to[edge as usize] as usize];
                    sum += self.share[edge as usize] * (there - own);
                }
                if lower {
                    if sum < worst {
                        worst = sum;
                    }
                } else if sum > worst {
                    worst = sum;
                }
                looked = looked.wrapping_add(1);
            }
            if lower && worst < -OFF {
                values[node] = (own + floor_of(worst + OFF)).max(0.0);
                changed = changed.wrapping_add(1);
            }
            if !lower && worst > OFF {
                values[node] = (own + ceil_of(worst - OFF)).min(UNIT);
                changed = changed.wrapping_add(1);
            }
        }
        Rounded { changed, looked }
    }
}
