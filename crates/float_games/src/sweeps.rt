//! This module has the sweeps that update the values of a game.

ghost use Rattle.std.specs.Float.{◌<ᶠ◌, ◌≤ᶠ◌, float_zero};
ghost use Rattle.std.specs.Prelude.{◌≡◌, ◌<◌, ◌≤◌, length, vec_len};
ghost use Rattle.float_games.specs.Units.{IsInUnits, AreInUnits};

use crate::UNIT;
use crate::game::FloatGame;

/// A sweep gives the greatest change of a value, and counts the choices that it exchanged.
#[derive(Clone, Copy, Debug, PartialEq)]
pub struct Swept {
    /// No value changed by more.
    pub change: f64,
    /// This many nodes exchanged their choice.
    pub exchanged: u32,
}

/// The best choice of a node has a value and a number.
#[derive(Clone, Copy)]
struct Best {
    value: f64,
    choice: u32,
}

/// Returns the nearest value from 0 to the unit, or 0 for what is no number.
pub fn bounded(value: f64) -> f64
    ensures units { IsInUnits result }
    ensures same { float_zero <ᶠ value → value ≤ᶠ UNIT → result ≡ value }
{
    if value > UNIT {
        UNIT
    } else if value > 0.0 {
        value
    } else {
        0.0
    }
}

impl FloatGame {
    ghost use Rattle.float_games.specs.Nodes.{nodes_of};

    /// Makes one sweep in place over all nodes: each gets the value of its choice, plus a cost. The policy's choice is
    /// exchanged for the best one if that gains more than `gain`. Returns the greatest change and the number of
    /// exchanges.
    pub fn sweep(&self, cost: f64, gain: f64, values: &mut [f64], policy: &mut [u32]) -> Swept
        requires values { length values.old ≡ nodes_of self.now }
        requires policy { length policy.old ≡ nodes_of self.now }
        ensures units { AreInUnits values.new }
        ensures few { result.exchanged ≤ nodes_of self.now }
        ensures kept { result.exchanged ≡ 0 → policy.new ≡ policy.old }
        ensures change { float_zero ≤ᶠ result.change }
    {
        let mut change = 0.0;
        let mut exchanged: u32 = 0;
        for node in 0..self.maximises.len() {
            let first = self.choice_starts[node];
            let end = self.choice_starts[node + 1];
            let maximises = self.maximises[node];
            let own = policy[node];
            let mut best = if maximises { f64::MIN } else { f64::MAX };
            let mut place = first;
            let mut kept = best;
            for choice in first..end {
                let begin = self.edge_starts[choice as usize];
                let stop = self.edge_starts[choice as usize + 1];
                let mut sum = self.gives[choice as usize];
                for edge in begin..stop {
                    sum += self.share[edge as usize] * values[self.to[edge as usize] as usize];
                }
                if choice == own {
                    kept = sum;
                }
                if maximises {
                    if best < sum {
                        best = sum;
                        place = choice;
                    }
                } else if sum < best {
                    best = sum;
                    place = choice;
                }
            }
            let gained = if maximises { best - kept } else { kept - best };
            if gained > gain {
                policy[node] = place;
                kept = best;
                exchanged = exchanged.wrapping_add(1);
            }
            let value = bounded(kept + cost);
            let by = (value - values[node]).abs();
            if by > change {
                change = by;
            }
            values[node] = value;
        }
        Swept { change, exchanged }
    }

    /// Makes one sweep in place under a policy: each node gets the value of its choice, plus a cost. If both sides own
    /// nodes, the minimiser's nodes get the value of their best choice instead, so that values from below stay below.
    /// Returns the greatest change.
    pub fn sweep_policy(&self, cost: f64, values: &mut [f64], policy: &[u32]) -> f64
        requires values { length values.old ≡ nodes_of self.now }
        requires policy { length policy.now ≡ nodes_of self.now }
        ensures units { AreInUnits values.new }
        ensures change { float_zero ≤ᶠ result }
    {
        let mut change = 0.0;
        let choices = self.gives.len();
        for node in 0..self.maximises.len() {
            let open = self.both && !self.maximises[node];
            let own = (policy[node] as usize).min(choices - 1);
            let first = if open {
                self.choice_starts[node] as usize
            } else {
                own
            };
            let end = if open {
                self.choice_starts[node + 1] as usize
            } else {
                own + 1
            };
            let mut least = f64::MAX;
            for choice in first..end {
                let begin = self.edge_starts[choice];
                let stop = self.edge_starts[choice + 1];
                let mut sum = self.gives[choice];
                for edge in begin..stop {
                    sum += self.share[edge as usize] * values[self.to[edge as usize] as usize];
                }
                if sum < least {
                    least = sum;
                }
            }
            let value = bounded(least + cost);
            let by = (value - values[node]).abs();
            if by > change {
                change = by;
            }
            values[node] = value;
        }
        change
    }

    /// Exchanges choices of one side for better ones over these values, if they gain more than `gain`. Returns the
    /// number of exchanges.
    pub fn improve(&self, side: bool, gain: f64, values: &[f64], policy: &mut [u32]) -> u32
        requires values { length values.now ≡ nodes_of self.now }
        requires policy { length policy.old ≡ nodes_of self.now }
        ensures few { result ≤ nodes_of self.now }
        ensures kept { result ≡ 0 → policy.new ≡ policy.old }
    {
        let mut exchanged: u32 = 0;
        for node in 0..self.maximises.len() {
            if self.maximises[node] != side {
                continue;
            }
            let own = (policy[node] as usize).min(self.gives.len() - 1);
            let kept = self.value_of(values, own);
            let best = self.best(values, node);
            let gained = if side {
                best.value - kept
            } else {
                kept - best.value
            };
            if gained > gain {
                policy[node] = best.choice;
                exchanged = exchanged.saturating_add(1);
            }
        }
        exchanged
    }

    /// Returns the best choice of a node over these values.
    fn best(&self, values: &[f64], node: usize) -> Best
        requires values { length values.now ≡ nodes_of self.now }
        requires node { node < nodes_of self.now }
    {
        let first = self.choice_starts[node];
        let end = self.choice_starts[node + 1];
        let maximises = self.maximises[node];
        let mut best = Best {
            value: if maximises { f64::MIN } else { f64::MAX },
            choice: first,
        };
        for choice in first..end {
            let value = self.value_of(values, choice as usize);
            let better = if maximises {
                best.value < value
            } else {
                value < best.value
            };
            if better {
                best = Best { value, choice };
            }
        }
        best
    }

    /// Returns the value of a choice.
    fn value_of(&self, values: &[f64], choice: usize) -> f64
        requires values { length values.now ≡ nodes_of self.now }
        requires choice { choice < vec_len self.now.gives }
    {
        let begin = self.edge_starts[choice];
        let end = self.edge_starts[choice + 1];
        let mut sum = self.gives[choice];
        for edge in begin..end {
            sum += self.share[edge as usize] * values[self.to[edge as usize] as usize];
        }
        sum
    }
}
