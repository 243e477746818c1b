//! A guess may end a run before the asked rounds.

ghost use Rattle.std.specs.Prelude.{◌≡◌, ◌≤◌, ◌<◌, length, All};
ghost use Rattle.game_model.specs.Query.{IsQuery, states};
ghost use Rattle.game_model.specs.Limits.{unit};
ghost use Rattle.game_model.specs.Dual.{IsZeroSet};
ghost use Rattle.predecessors.specs.Lists.{ArePredecessors};

use crate::parallel_sweep::ParallelSweep;
use game_model::{Marks, Question, UNIT};
use game_outside::OutOfMemory;
use predecessors::Predecessors;
use std::alloc::Global;
use std::thread::Threads;
use upper_guess::{Witnesses, guess_with};
use verdicts::StopRule;

/// This is the guess that ended a run, with the lower bounds that it was made over.
#[derive(Drop)]
pub struct SettlingGuess {
    /// Each state has a lower bound.
    pub lower: Vec<u64>,
    /// Each state has an entry of the guess.
    pub guess: Vec<u64>,
}

/// This is a question with its zero set and predecessors, and what may end its run: a rule that is asked at initial
/// states.
#[derive(Drop)]
pub struct Ending<'a, F: Fn(u64, u64) -> bool> {
    pub question: &'a Question<'a>,
    pub zero: &'a Marks,
    pub predecessors: &'a Predecessors,
    pub rule: &'a StopRule<F>,
    pub initial: &'a [u32],
    ghost posed: { IsQuery question.now },
    ghost lists: { ArePredecessors question.now.game predecessors.now },
    ghost inside: { All (λ s. s < states question.now) initial.now },
}

impl<F: Fn(u64, u64) -> bool> Ending<'_, F> {
    ghost use Rattle.std.specs.Prelude.{◌-◌, ◌↔◌, true, false, slice_index, IfOk, IfSome, None};
    ghost use Rattle.std.specs.Int.{is_power_of_two};
    ghost use Rattle.upper_guess.specs.Guess.{AreWitnesses};
    ghost use Rattle.verdicts.specs.Verdict.{is_asking};
    ghost use Rattle.verdicts.specs.Stop.{bound_of, IsStopRule};
    ghost use Rattle.bracket_engine.specs.Stop.{AreSettledAt, upper_from, IsSettlingGuess};

    /// After 1, 2, 4, 8 and so on rounds, returns the guess over the lower bounds if the guess and the swapped values
    /// settle the threshold at each initial state. It returns one after such a round if the lower bounds and the
    /// swapped values settle the threshold without it. If the bound asks for a value, it makes no guess, since no rule
    /// could use it. The parallel sweep fills the tables of the guess.
    pub fn asked_after<R: Threads + Sync>(
        &self,
        parallel: &ParallelSweep<'_, R>,
        alloc: Global,
        rounds: u32,
        lower: &[u64],
        swapped_values: &[u64],
        witnesses: &mut Witnesses,
    ) -> Result<Option<SettlingGuess>, OutOfMemory>
        requires rule { IsStopRule F.Fn self.now.rule.now }
        requires zero { IsZeroSet self.now.question.now self.now.zero.now }
        requires lower { length lower.now ≡ states self.now.question.now }
        requires lower_units { All (λ v. v ≤ unit) lower.now }
        requires swapped_values { length swapped_values.now ≡ states self.now.question.now }
        requires witnesses { AreWitnesses self.now.question.now witnesses.old.states }
        ensures witnesses { AreWitnesses self.now.question.now witnesses.new.states }
        ensures kept { IfOk result (λ found. IfSome found (IsSettlingGuess self.now.question.now self.now.zero.now
            (bound_of self.now.rule.now) self.now.initial.now (slice_index lower.now)
            (slice_index swapped_values.now))) }
        ensures open { IfOk result (λ found. found ≡ None → is_asking (bound_of self.now.rule.now) ≡ false
            → is_power_of_two rounds ≡ true
            → ¬ AreSettledAt (bound_of self.now.rule.now) self.now.initial.now (slice_index lower.now)
            (λ s. unit - slice_index swapped_values.now s)) }
        ensures asking { is_asking (bound_of self.now.rule.now) ≡ true → IfOk result (λ found. found ≡ None) }
    {
        if !self.rule.may_settle() || !rounds.is_power_of_two() {
            return Ok(None);
        }
        self.settling_guess(parallel, alloc, lower, swapped_values, witnesses)
    }

    /// Returns the guess over the lower bounds if the guess and the swapped values settle the threshold at each initial
    /// state.
    fn settling_guess<R: Threads + Sync>(
        &self,
        parallel: &ParallelSweep<'_, R>,
        alloc: Global,
        lower: &[u64],
        swapped_values: &[u64],
        witnesses: &mut Witnesses,
    ) -> Result<Option<SettlingGuess>, OutOfMemory>
        requires rule { IsStopRule F.Fn self.now.rule.now }
        requires zero { IsZeroSet self.now.question.now self.now.zero.now }
        requires lower { length lower.now ≡ states self.now.question.now }
        requires lower_units { All (λ v. v ≤ unit) lower.now }
        requires swapped_values { length swapped_values.now ≡ states self.now.question.now }
        requires witnesses { AreWitnesses self.now.question.now witnesses.old.states }
        ensures witnesses { AreWitnesses self.now.question.now witnesses.new.states }
        ensures kept { IfOk result (λ found. IfSome found (IsSettlingGuess self.now.question.now self.now.zero.now
            (bound_of self.now.rule.now) self.now.initial.now (slice_index lower.now)
            (slice_index swapped_values.now))) }
        ensures open { IfOk result (λ found. found ≡ None → ¬ AreSettledAt
            (bound_of self.now.rule.now) self.now.initial.now (slice_index lower.now)
            (λ s. unit - slice_index swapped_values.now s)) }
    {
        let guess = guess_with(parallel, alloc, self.question, self.zero, lower, witnesses)?;
        if !self.settles(lower, swapped_values, &guess) {
            return Ok(None);
        }
        let lower = lower.to_vec(alloc)?;
        Ok(Some(SettlingGuess { lower, guess }))
    }

    /// Returns whether the rule says yes at each initial state, to the lower bound and the lesser of the two upper
    /// bounds.
    fn settles(&self, lower: &[u64], swapped_values: &[u64], guess: &[u64]) -> bool
        requires rule { IsStopRule F.Fn self.now.rule.now }
        requires lower { length lower.now ≡ states self.now.question.now }
        requires lower_units { All (λ v. v ≤ unit) lower.now }
        requires swapped_values { length swapped_values.now ≡ states self.now.question.now }
        requires guess { length guess.now ≡ states self.now.question.now }
        ensures { (result ≡ true) ↔ AreSettledAt (bound_of self.now.rule.now) self.now.initial.now
            (slice_index lower.now) (upper_from (slice_index swapped_values.now) (slice_index guess.now)) }
    {
        for state in self.initial {
            let place = *state as usize;
            let upper = UNIT.saturating_sub(swapped_values[place]).min(guess[place]);
            if !self.rule.asks(lower[place], upper) {
                return false;
            }
        }
        true
    }
}
