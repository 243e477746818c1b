//! This module finds the entry of a guess at one state without its table, by recursion over the choices.

ghost use Rattle.std.specs.Prelude.{◌≡◌, ◌<◌, ◌≤◌, length, IfSome, IsTrue};
ghost use Rattle.game_model.specs.Game.{choices_of};
ghost use Rattle.game_model.specs.Query.{states};
ghost use Rattle.game_model.specs.Rounded.{up_value};
ghost use Rattle.upper_guess.specs.Guess.{most_steps};
ghost use Rattle.upper_guess.specs.inside.OfGuesses.{entry_of, choice_at, best_of, IsSumOf, IsRefusedOf};

use crate::guesses::Guesses;
use fixed_bellman::{Quotient, better};
use game_model::UNIT;

/// If the question has fewer states than this, a test at one state may look into as many states as this. But it looks
/// into no more than twice as many as the up steps of the table would, because a table would also have to be allocated.
const LEAST_BUDGET: u32 = 1_000;

/// A sample looks into one state in this many.
const SAMPLED: u32 = 32;

/// Multiples of this number, 2^32 over the golden ratio, spread a sample over the states (Knuth, section 6.4).
const SPREAD: u32 = 2_654_435_769;

impl Guesses<'_> {
    /// Returns a state at which the table after `steps` up steps is seen to be refused. This is the given state, or
    /// else a state of a sample. A table after `made` up steps was made before.
    pub fn refusal(&self, steps: u32, state: u32, made: u32) -> Option<u32>
        requires steps { steps ≤ most_steps }
        requires state { state < states self.now.question.now }
        ensures inside { IfSome result (λ s. s < states self.now.question.now) }
        ensures refused { IfSome result (λ s. IsRefusedOf self.now steps) }
    {
        if self.refuses_at(steps, state, made) {
            return Some(state);
        }
        self.sampled_refusal(steps)
    }

    /// Returns a state of a sample at which a table is seen to be refused. The sample looks into few states, so that it
    /// costs a small part of an up step.
    fn sampled_refusal(&self, steps: u32) -> Option<u32>
        requires steps { steps ≤ most_steps }
        ensures inside { IfSome result (λ s. s < states self.now.question.now) }
        ensures refused { IfSome result (λ s. IsRefusedOf self.now steps) }
    {
        self.question.invariant();
        let states = self.question.game().states();
        let mut budget = states / SAMPLED;
        for turn in 0..states / SAMPLED {
            let state = turn.wrapping_mul(SPREAD) % states;
            if self.rises_at(steps, state, &mut budget) {
                return Some(state);
            }
            if budget == 0 {
                return None;
            }
        }
        None
    }

    /// Returns whether the table after `steps` up steps is seen to be refused at this state. The recursion looks into
    /// no more states than the question has. If these are few, it may look into up to twice as many as the up steps
    /// from the table that was made would, because it then costs no more than they do.
    fn refuses_at(&self, steps: u32, state: u32, made: u32) -> bool
        requires steps { steps ≤ most_steps }
        requires state { state < states self.now.question.now }
        ensures { IsTrue result → IsRefusedOf self.now steps }
    {
        let states = self.question.game().states();
        let up_steps = steps.saturating_sub(made).saturating_add(1);
        let few = states.saturating_mul(up_steps).saturating_mul(2);
        let mut budget = states.max(LEAST_BUDGET.min(few));
        self.rises_at(steps, state, &mut budget)
    }

    /// Returns whether a state is seen to rise from a table to the next, if the budget suffices.
    fn rises_at(&self, steps: u32, state: u32, budget: &mut u32) -> bool
        requires steps { steps ≤ most_steps }
        requires state { state < states self.now.question.now }
        ensures { IsTrue result → IsRefusedOf self.now steps }
    {
        let Some(entry) = self.entry(steps, state, budget) else {
            return false;
        };
        let Some(raised) = self.entry(steps + 1, state, budget) else {
            return false;
        };
        entry < raised
    }

    /// Returns the entry at a state after `steps` up steps, if the budget suffices.
    #[cycle(local)]
    fn entry(&self, steps: u32, state: u32, budget: &mut u32) -> Option<u64>
        requires { state < states self.now.question.now }
        ensures { IfSome result (λ v. v ≡ entry_of self.now steps state) }
    {
        if steps == 0 {
            return Some(self.first_entry(state));
        }
        if self.question.is_goal(state) {
            return Some(UNIT);
        }
        if self.question.is_dead(state) {
            return Some(0);
        }
        if *budget == 0 {
            return None;
        }
        *budget -= 1;
        self.best(steps - 1, state, budget)
    }

    /// Returns the up value of the best choice of a state.
    #[cycle(local)]
    fn best(&self, steps: u32, state: u32, budget: &mut u32) -> Option<u64>
        requires { state < states self.now.question.now }
        ensures { IfSome result (λ v. v ≡ best_of self.now steps state) }
    {
        let side = self.question.side(state);
        let mut best = self.value(steps, state, 0, budget)?;
        for choice in 1..self.question.game().choices_of(state) {
            let value = self.value(steps, state, choice, budget)?;
            best = better(side, best, value);
        }
        Some(best)
    }

    /// Returns the up value of a choice.
    #[cycle(local)]
    fn value(&self, steps: u32, state: u32, choice: u32, budget: &mut u32) -> Option<u64>
        requires state { state < states self.now.question.now }
        requires choice { choice < length (choices_of self.now.question.now.game state) }
        ensures { IfSome result (λ v. v ≡ up_value (entry_of self.now steps) (choice_at self.now state choice)) }
    {
        let sum = self.sum(steps, state, choice, budget)?;
        let total = self.question.game().total(state, choice);
        Some(Quotient::new(sum, total).up())
    }

    /// Returns the sum of weight times entry of the successor.
    #[cycle(local)]
    fn sum(&self, steps: u32, state: u32, choice: u32, budget: &mut u32) -> Option<u128>
        requires state { state < states self.now.question.now }
        requires choice { choice < length (choices_of self.now.question.now.game state) }
        ensures { IfSome result (λ v. IsSumOf self.now steps (choice_at self.now state choice) v) }
    {
        let game = self.question.game();
        let mut sum: u128 = 0;
        for place in 0..game.edge_count(state, choice) {
            let edge = game.edge(state, choice, place);
            let entry = self.entry(steps, edge.to, budget)?;
            sum += edge.weight * u128::from(entry);
        }
        Some(sum)
    }
}
