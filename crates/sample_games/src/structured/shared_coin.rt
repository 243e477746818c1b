// Two processes share a coin.
use super::Model;
use super::numbered::{Situation, model_from};
use std::alloc::Global;

/// The counter goes this far each way from where it begins: the range is 4 by two processes.
const REACH: u32 = 8;

/// This is what a process has tossed and not yet counted.
#[derive(Clone, Copy, PartialEq)]
enum Toss {
    Nothing,
    Up,
    Down,
}

/// A state has the counter, and what each process has tossed.
#[derive(Clone, Copy, PartialEq)]
struct Tossing {
    counter: u32,
    first: Toss,
    second: Toss,
}

impl Tossing {
    /// Returns whether the counter has come to an end of its range.
    fn is_over(self) -> bool {
        self.counter == 0 || self.counter >= 2 * REACH
    }

    /// Makes the choice of a process that has tossed this. `made` gives the state with another counter and toss.
    fn choice<F: Fn(u32, Toss) -> Tossing>(
        self,
        alloc: Global,
        toss: Toss,
        made: F,
    ) -> Option<Vec<(Tossing, u64)>>
        requires { F.IsAlwaysCallable made }
    {
        let counter = self.counter;
        match toss {
            Toss::Nothing => {
                vec![in alloc;
                    (made(counter, Toss::Up), 50),
                    (made(counter, Toss::Down), 50),
                ]
                .ok()
            }
            Toss::Up => {
                vec![in alloc; (made(counter.saturating_add(1), Toss::Nothing), 100)].ok()
            }
            Toss::Down => {
                vec![in alloc; (made(counter.saturating_sub(1), Toss::Nothing), 100)].ok()
            }
        }
    }
}

impl Situation for Tossing {
    fn choices(self, alloc: Global) -> Option<Vec<Vec<(Self, u64)>>> {
        if self.is_over() {
            return vec![in alloc; vec![in alloc; (self, 100)].ok()?].ok();
        }
        let Tossing {
            counter: _,
            first,
            second,
        } = self;
        let by_first = self.choice(
            alloc,
            first,
            |counter, first| Tossing {
                counter,
                first,
                second,
            },
        )?;
        let by_second = self.choice(
            alloc,
            second,
            |counter, second| Tossing {
                counter,
                first,
                second,
            },
        )?;
        vec![in alloc; by_first, by_second].ok()
    }

    fn is_goal(self) -> bool {
        self.counter >= 2 * REACH
    }
}

/// Each process tosses, and then moves a counter up or down, until the counter comes to an end of its range. The player
/// chooses which process goes on. The goal is that the counter comes to the upper end.
pub fn shared_coin(alloc: Global) -> Option<Model> {
    let first = Tossing {
        counter: REACH,
        first: Toss::Nothing,
        second: Toss::Nothing,
    };
    model_from(alloc, first)
}
