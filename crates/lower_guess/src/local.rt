//! The entry of a raised table at one state is found without the table, by recursion over the choices.

ghost use Rattle.std.specs.Prelude.{◌≡◌, ◌<◌, length, IfSome, IsTrue};
ghost use Rattle.game_model.specs.Game.{choices_of};
ghost use Rattle.game_model.specs.Query.{states};
ghost use Rattle.game_model.specs.Rounded.{down_value};
ghost use Rattle.lower_guess.specs.inside.OfGuesses.{entry_of, step_of, best_of, choice_at, IsSumOf, AreRefusedOf};

use crate::guesses::{Guesses, MOST_STEPS};
use fixed_bellman::{Quotient, better};
use game_model::UNIT;

/// This many states, evenly spread, are checked for a fall of the last table.
const MOST_TRIES: u32 = 256;

/// All these checks together look into at most one state for this many states of the question, since a table would cost
/// more.
const STATES_FOR_A_LOOK: u32 = 4;

impl Guesses<'_> {
    /// Returns whether the last table of the excess is seen to fall at one of some states. Then each table of the
    /// excess falls, and is refused.
    pub fn falls_to_the_last(&self) -> bool
        ensures { IsTrue result → AreRefusedOf self.now }
    {
        self.question.invariant();
        let states = self.question.game().states();
        let stride = states / MOST_TRIES + 1;
        let mut budget = states / STATES_FOR_A_LOOK;
        let mut state = 0;
        while state < states {
            if self.falls_at(state, &mut budget) {
                return true;
            }
            state += stride;
        }
        false
    }

    /// Returns whether the last table is seen to fall at this state, if the budget suffices.
    fn falls_at(&self, state: u32, budget: &mut u32) -> bool
        requires { state < states self.now.question.now }
        ensures { IsTrue result → AreRefusedOf self.now }
    {
        let Some(entry) = self.entry(MOST_STEPS, state, budget) else {
            return false;
        };
        let Some(step) = self.step(MOST_STEPS, state, budget) else {
            return false;
        };
        step < entry
    }

    /// Returns the entry at a state after this many steps down, if the budget suffices.
    #[cycle(local)]
    fn entry(&self, steps: u32, state: u32, budget: &mut u32) -> Option<u64>
        requires { state < states self.now.question.now }
        ensures { IfSome result (λ v. v ≡ entry_of self.now steps state) }
    {
        if steps == 0 {
            return Some(self.first_entry(state));
        }
        let entry = self.entry(steps - 1, state, budget)?;
        if entry == 0 {
            return Some(0);
        }
        let step = self.step(steps - 1, state, budget)?;
        Some(entry.min(step))
    }

    /// Returns the down step of that table at the state.
    #[cycle(local)]
    fn step(&self, steps: u32, state: u32, budget: &mut u32) -> Option<u64>
        requires { state < states self.now.question.now }
        ensures { IfSome result (λ v. v ≡ step_of self.now steps state) }
    {
        if self.question.is_goal(state) {
            return Some(UNIT);
        }
        if self.question.is_dead(state) {
            return Some(0);
        }
        if *budget == 0 {
            return None;
        }
        *budget -= 1;
        self.best(steps, state, budget)
    }

    /// Returns the down value of the best choice of a state.
    #[cycle(local)]
    fn best(&self, steps: u32, state: u32, budget: &mut u32) -> Option<u64>
        requires { state < states self.now.question.now }
        ensures { IfSome result (λ v. v ≡ best_of self.now steps state) }
    {
        let side = self.question.side(state);
        let mut best = self.value(steps, state, 0, budget)?;
        for choice in 1..self.question.game().choices_of(state) {
            let value = self.value(steps, state, choice, budget)?;
            best = better(side, best, value);
        }
        Some(best)
    }

    /// Returns the down value of a choice.
    #[cycle(local)]
    fn value(&self, steps: u32, state: u32, choice: u32, budget: &mut u32) -> Option<u64>
        requires state { state < states self.now.question.now }
        requires choice { choice < length (choices_of self.now.question.now.game state) }
        ensures { IfSome result (λ v. v ≡ down_value (entry_of self.now steps) (choice_at self.now state choice)) }
    {
        let sum = self.sum(steps, state, choice, budget)?;
        let total = self.question.game().total(state, choice);
        Some(Quotient::new(sum, total).down())
    }

    /// Returns the sum of weight times entry of the successor.
    #[cycle(local)]
    fn sum(&self, steps: u32, state: u32, choice: u32, budget: &mut u32) -> Option<u128>
        requires state { state < states self.now.question.now }
        requires choice { choice < length (choices_of self.now.question.now.game state) }
        ensures { IfSome result (λ v. IsSumOf self.now steps (choice_at self.now state choice) v) }
    {
        let game = self.question.game();
        let mut sum: u128 = 0;
        for place in 0..game.edge_count(state, choice) {
            let edge = game.edge(state, choice, place);
            let entry = self.entry(steps, edge.to, budget)?;
            sum += edge.weight * u128::from(entry);
        }
        Some(sum)
    }
}
