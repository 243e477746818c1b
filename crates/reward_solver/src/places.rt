//! This module chooses the places of units.

ghost use Rattle.std.specs.Prelude.{◌≤◌};
ghost use Rattle.reward_units.specs.Units.{most_places};

use game_model::UNIT;
use reward_units::MOST_PLACES;

/// Units have so many places now, and at most so many.
#[derive(Clone, Copy, PartialEq, Eq)]
pub struct Places {
    pub now: u32,
    pub most: u32,
}

impl Places {
    /// Begins with whole rewards.
    pub fn first() -> Places
        ensures { result.now ≤ most_places }
    {
        Places {
            now: 0,
            most: MOST_PLACES,
        }
    }

    /// Returns the places after a solution whose greatest value has this many units: more of them if it stays within
    /// 10^15 units, and one fewer if it seems to be above.
    pub fn after(self, greatest: u64) -> Places
        requires { self.now ≤ most_places }
        ensures { result.now ≤ most_places }
    {
        if greatest >= UNIT && self.now > 0 {
            return Places {
                now: self.now - 1,
                most: self.now - 1,
            };
        }
        let mut now = self.now;
        let mut value = greatest;
        for _ in 0..MOST_PLACES {
            if now >= self.most.min(MOST_PLACES) || value > UNIT / 10 {
                break;
            }
            now += 1;
            value *= 10;
        }
        Places {
            now,
            most: self.most,
        }
    }
}
