//! This crate makes the guess of optimistic value iteration: an upper table from a lower one (Hartmanns and Kaminski,
//! Optimistic value iteration, CAV 2020).
//!
//! [`guess`] tries tables one after another, by rising excess over the lower table and then by up steps, and gives the
//! first whose own up step is nowhere above it. Such a table is inductive, so no k-step value is above it. The last
//! excess is above the unit, and its first table is always accepted: some table is found for every lower table.
//!
//! A table is made only if it is not seen to be refused at one state: the one at which the last table of as many up
//! steps was refused, or else one of a small sample. Its entry and the up value there are found by recursion over the
//! choices. No clause says how near the guess comes to the values, or how long it takes.
//!
//! [`guess`] works with one worker. [`guess_with`] takes a maker of the up steps of whole tables ([`UpTables`]), so
//! that several workers can make them; it gives the same guess.
#![tactic(auto)]

ghost use Rattle.std.specs.Prelude.{◌≡◌, ◌≤◌, length, slice_index, All, IfOk};
ghost use Rattle.game_model.specs.Query.{states};
ghost use Rattle.game_model.specs.Limits.{unit};
ghost use Rattle.game_model.specs.Rounded.{IsInductive};
ghost use Rattle.game_model.specs.Bounds.{IsHigh};
ghost use Rattle.game_model.specs.Dual.{IsZeroSet};
ghost use Rattle.upper_guess.specs.Guess.{IsFirstGuess, AreWitnesses};

mod excesses;
mod guesses;
pub mod laws;
mod local;
mod part;
mod tables;
mod witnesses;

use excesses::{LAST_PLACE, excess_at};
use game_laws::tables::inductive_is_high;
use game_model::{Marks, Question};
use game_outside::OutOfMemory;
use guesses::Guesses;
pub use part::fill_part;
use std::alloc::Global;
pub use tables::{Alone, UpTables};
pub use witnesses::Witnesses;

/// Returns the first guess that is accepted: by excess and then by up steps the first table whose up step is nowhere
/// above it. The only error is that memory ran out.
pub fn guess<'a>(
    alloc: Global,
    question: &'a Question<'a>,
    zero: &'a Marks,
    lower: &'a [u64],
) -> Result<Vec<u64>, OutOfMemory>
    requires zero { IsZeroSet question.now zero.now }
    requires length { length lower.now ≡ states question.now }
    requires units { All (λ v. v ≤ unit) lower.now }
    ensures first { IfOk result (λ table. IsFirstGuess question.now zero.now (slice_index lower.now) table.items) }
    ensures length { IfOk result (λ table. length table.items ≡ states question.now) }
    ensures units { IfOk result (λ table. All (λ v. v ≤ unit) table.items) }
    ensures inductive { IfOk result (λ table. IsInductive question.now (slice_index table.items)) }
    ensures high { IfOk result (λ table. IsHigh question.now (slice_index table.items)) }
{
    question.invariant();
    guess_with(
        &Alone {},
        alloc,
        question,
        zero,
        lower,
        &mut Witnesses::none(),
    )
}

/// Returns the same guess, from tables that this maker makes. The states that refused the last guess of this question
/// are looked at first, and those that refuse this guess take their places.
pub fn guess_with<'a, M: UpTables>(
    maker: &M,
    alloc: Global,
    question: &'a Question<'a>,
    zero: &'a Marks,
    lower: &'a [u64],
    witnesses: &mut Witnesses,
) -> Result<Vec<u64>, OutOfMemory>
    requires can { M.can_fill }
    requires zero { IsZeroSet question.now zero.now }
    requires length { length lower.now ≡ states question.now }
    requires units { All (λ v. v ≤ unit) lower.now }
    requires witnesses { AreWitnesses question.now witnesses.old.states }
    ensures witnesses { AreWitnesses question.now witnesses.new.states }
    ensures first { IfOk result (λ table. IsFirstGuess question.now zero.now (slice_index lower.now) table.items) }
    ensures length { IfOk result (λ table. length table.items ≡ states question.now) }
    ensures units { IfOk result (λ table. All (λ v. v ≤ unit) table.items) }
    ensures inductive { IfOk result (λ table. IsInductive question.now (slice_index table.items)) }
    ensures high { IfOk result (λ table. IsHigh question.now (slice_index table.items)) }
{
    question.invariant();
    for place in 0..LAST_PLACE + 1 {
        let guesses = Guesses {
            question,
            zero,
            lower,
            excess: excess_at(place),
        };
        if let Some(table) = guesses.first_accepted(maker, alloc, witnesses)? {
            inductive_is_high(question, &table);
            return Ok(table);
        }
    }
    unreachable!()
}
