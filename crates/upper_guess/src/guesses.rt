//! This module tries the guesses of one excess.

ghost use Rattle.std.specs.Prelude.{◌≡◌, ◌^◌, ◌≤◌, length, All};
ghost use Rattle.game_model.specs.Query.{IsQuery, states};
ghost use Rattle.game_model.specs.Limits.{unit};

use crate::tables::{UpTables, most_raised, up_table};
use crate::witnesses::Witnesses;
use game_model::{Marks, Question, UNIT};
use game_outside::OutOfMemory;
use std::alloc::Global;

/// One excess has at most this many up steps.
pub const MOST_STEPS: u32 = 4;

/// The guesses of one excess are made from a question, its zero set, a lower table and the excess.
#[derive(Drop)]
pub struct Guesses<'a> {
    pub question: &'a Question<'a>,
    pub zero: &'a Marks,
    pub lower: &'a [u64],
    pub excess: u64,
    ghost posed: { IsQuery question.now },
    ghost marked: { length zero.now ≡ states question.now },
    ghost many: { length lower.now ≡ states question.now },
    ghost units: { All (λ v. v ≤ unit) lower.now },
    ghost small: { excess ≤ 2 ^ 50 },
}

impl Guesses<'_> {
    ghost use Rattle.std.specs.Prelude.{◌<◌, IfOk, IfSome, MatchOption};
    ghost use Rattle.upper_guess.specs.Guess.{AreWitnesses};
    ghost use Rattle.upper_guess.specs.inside.OfGuesses.{first_entry_of, IsTableOf, AreRefusedOf, IsFirstOf, steps_of};

    /// Returns the first of the tables of this excess that is accepted, or none if each is refused. A table is not made
    /// if it is seen to be refused at the witness of its steps, or at a state of a sample. That state then becomes the
    /// witness. If a table is made and refused, the witness becomes the state that rises most from it.
    pub fn first_accepted<M: UpTables>(
        &self,
        maker: &M,
        alloc: Global,
        witnesses: &mut Witnesses,
    ) -> Result<Option<Vec<u64>>, OutOfMemory>
        requires can { M.can_fill }
        requires witnesses { AreWitnesses self.now.question.now witnesses.old.states }
        ensures witnesses { AreWitnesses self.now.question.now witnesses.new.states }
        ensures found { IfOk result (λ found. MatchOption found (AreRefusedOf self.now)
            (λ table. IsFirstOf self.now table.items)) }
    {
        let mut made = None;
        for steps in 0..MOST_STEPS + 1 {
            let witness = witnesses.states[steps as usize];
            if let Some(state) = self.refusal(steps, witness, Self::steps_made(&made)) {
                witnesses.states[steps as usize] = state;
                continue;
            }
            let table = self.table_after(maker, alloc, steps, made)?;
            let next = up_table(maker, alloc, self.question, &table)?;
            let Some(state) = most_raised(self.question, &table, &next) else {
                return Ok(Some(table));
            };
            witnesses.states[steps as usize] = state;
            made = Some((next, steps + 1));
        }
        Ok(None)
    }

    /// Returns the table after `steps` up steps, from one that was made, if any, after no more steps.
    fn table_after<M: UpTables>(
        &self,
        maker: &M,
        alloc: Global,
        steps: u32,
        made: Option<(Vec<u64>, u32)>,
    ) -> Result<Vec<u64>, OutOfMemory>
        requires can { M.can_fill }
        requires made { IfSome made (λ m. IsTableOf self.now m.1 m.0.items × (m.1 ≤ steps)) }
        ensures { IfOk result (λ table. IsTableOf self.now steps table.items) }
    {
        let (mut table, at) = match made {
            Some(made) => made,
            None => (self.first_table(alloc)?, 0),
        };
        for _step in at..steps {
            table = up_table(maker, alloc, self.question, &table)?;
        }
        Ok(table)
    }

    /// Returns the table before any up step.
    fn first_table(&self, alloc: Global) -> Result<Vec<u64>, OutOfMemory>
        ensures { IfOk result (λ table. IsTableOf self.now 0 table.items) }
    {
        let states = self.question.game().states();
        let mut table = Vec::with_capacity(alloc, states as usize)?;
        for state in 0..states {
            table.push(self.first_entry(state))?;
        }
        Ok(table)
    }

    /// Returns the entry of that table at a state.
    pub fn first_entry(&self, state: u32) -> u64
        requires { state < states self.now.question.now }
        ensures value { result ≡ first_entry_of self.now state }
        ensures units { result ≤ unit }
    {
        if self.zero.has(state) {
            return 0;
        }
        if self.question.is_goal(state) {
            return UNIT;
        }
        UNIT.min(self.lower[state as usize] + self.excess)
    }

    /// Returns the up steps of the table that was made, if any.
    fn steps_made(made: &Option<(Vec<u64>, u32)>) -> u32
        ensures { result ≡ steps_of made.now }
    {
        match made {
            Some((_table, steps)) => *steps,
            None => 0,
        }
    }
}
