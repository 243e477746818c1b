//! This module makes the raised tables of one excess.

ghost use Rattle.std.specs.Prelude.{◌≡◌, ℕ, ◌<◌, ◌≤◌, length, slice_index, All, IfOk};
ghost use Rattle.game_model.specs.Query.{IsQuery, states};
ghost use Rattle.game_model.specs.Limits.{unit};
ghost use Rattle.predecessors.specs.Lists.{ArePredecessors};

use crate::guess::LowerGuess;
use crate::lesser::{is_same, lesser_table, mark_again};
use game_model::{Marks, Question, UNIT};
use game_outside::OutOfMemory;
use predecessors::Predecessors;
use rank_certificate::rank_standing;
use std::alloc::Global;

/// An excess has at most this many steps down.
pub const MOST_STEPS: u32 = 4;

/// The tables of one excess are made from a question, its zero set, a lower table and the excess, and for each state
/// the moves that lead to it.
#[derive(Drop)]
pub struct Guesses<'a> {
    pub question: &'a Question<'a>,
    pub zero: &'a Marks,
    pub base: &'a [u64],
    pub excess: u64,
    pub predecessors: &'a Predecessors,
    ghost posed: { IsQuery question.now },
    ghost marked: { length zero.now ≡ states question.now },
    ghost many: { length base.now ≡ states question.now },
    ghost units: { All (λ v. v ≤ unit) base.now },
    ghost small: { excess ≤ 4 },
    ghost lists: { ArePredecessors question.now.game predecessors.now },
}

impl Guesses<'_> {
    ghost use Rattle.std.specs.Prelude.{IfSome, MatchOption};
    ghost use Rattle.game_model.specs.Ranks.{Ranked};
    ghost use Rattle.rank_certificate.specs.Carrying.{IsLayeredPlan, Stands};
    ghost use Rattle.lower_guess.specs.LowerGuess.{most_steps};
    ghost use Rattle.lower_guess.specs.inside.OfGuesses.{first_entry_of, IsTableOf, IsRefusedOf, AreRefusedOf, IsFirstOf};

    /// Returns the first of the tables of this excess that can be ranked, with its plan, or none if each is refused. It
    /// makes no table if the last one is seen to fall.
    pub fn first_ranked(&self, alloc: Global) -> Result<Option<LowerGuess>, OutOfMemory>
        ensures found { IfOk result (λ found. MatchOption found (AreRefusedOf self.now)
            (λ g. IsFirstOf self.now g.values.items)) }
        ensures plan { IfOk result (λ found. IfSome found (λ g.
            IsLayeredPlan self.now.question.now g.values.items g.plan.choices.items g.plan.ranks.items)) }
        ensures ranked { IfOk result (λ found. IfSome found (λ g.
            Ranked self.now.question.now g.values.items g.plan.choices.items g.plan.ranks.items)) }
    {
        if self.falls_to_the_last() {
            Ok(None)
        } else {
            self.first_made(alloc)
        }
    }

    /// Returns the same by making the tables in turn. If a state falls, the table is refused. If no state falls, all
    /// later tables are the same, and the search for ranks decides. After the first step only predecessors of states
    /// that fell are looked at.
    fn first_made(&self, alloc: Global) -> Result<Option<LowerGuess>, OutOfMemory>
        ensures found { IfOk result (λ found. MatchOption found (AreRefusedOf self.now)
            (λ g. IsFirstOf self.now g.values.items)) }
        ensures plan { IfOk result (λ found. IfSome found (λ g.
            IsLayeredPlan self.now.question.now g.values.items g.plan.choices.items g.plan.ranks.items)) }
        ensures ranked { IfOk result (λ found. IfSome found (λ g.
            Ranked self.now.question.now g.values.items g.plan.choices.items g.plan.ranks.items)) }
    {
        let states = self.question.game().states();
        let mut marks = vec![in alloc; true; states as usize]?;
        let mut table = self.first_table(alloc)?;
        for steps in 0..MOST_STEPS + 1 {
            let next = lesser_table(alloc, self.question, &table, &marks)?;
            if is_same(&next, &table) {
                drop(next);
                drop(marks);
                return self.rank(alloc, steps, table);
            }
            mark_again(
                self.question.game(),
                self.predecessors,
                &table,
                &next,
                &mut marks,
            );
            table = next;
        }
        Ok(None)
    }

    /// Returns a table after this many steps down, in which no state falls, with its plan. It returns none if the table
    /// is refused, since then each later one is refused.
    fn rank(
        &self,
        alloc: Global,
        steps: u32,
        table: Vec<u64>,
    ) -> Result<Option<LowerGuess>, OutOfMemory>
        requires few { steps ≤ most_steps }
        requires table { IsTableOf self.now steps table.items }
        requires stand { (s : ℕ) → s < states self.now.question.now
            → Stands self.now.question.now (slice_index table.items) s }
        requires refused { (j : ℕ) → j < steps → IsRefusedOf self.now j }
        ensures found { IfOk result (λ found. MatchOption found (AreRefusedOf self.now)
            (λ g. IsFirstOf self.now g.values.items)) }
        ensures plan { IfOk result (λ found. IfSome found (λ g.
            IsLayeredPlan self.now.question.now g.values.items g.plan.choices.items g.plan.ranks.items)) }
        ensures ranked { IfOk result (λ found. IfSome found (λ g.
            Ranked self.now.question.now g.values.items g.plan.choices.items g.plan.ranks.items)) }
    {
        let Some(plan) = rank_standing(alloc, self.question, &table, self.predecessors)? else {
            return Ok(None);
        };
        Ok(Some(LowerGuess {
            values: table,
            plan,
        }))
    }

    /// Makes the table before any step down.
    fn first_table(&self, alloc: Global) -> Result<Vec<u64>, OutOfMemory>
        ensures { IfOk result (λ table. IsTableOf self.now 0 table.items) }
    {
        let states = self.question.game().states();
        let mut table = Vec::with_capacity(alloc, states as usize)?;
        for state in 0..states {
            table.push(self.first_entry(state))?;
        }
        Ok(table)
    }

    /// Returns the entry of that table at a state.
    pub fn first_entry(&self, state: u32) -> u64
        requires { state < states self.now.question.now }
        ensures value { result ≡ first_entry_of self.now state }
        ensures units { result ≤ unit }
    {
        if self.question.is_goal(state) {
            return UNIT;
        }
        if self.zero.has(state) {
            return 0;
        }
        UNIT.min(self.base[state as usize] + self.excess)
    }
}
