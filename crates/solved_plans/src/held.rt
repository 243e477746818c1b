//! This module has the upper table, with the replies that hold the maximiser to it.

ghost use Rattle.std.specs.Prelude.{◌≤◌, [], slice_index, All, IfOk};
ghost use Rattle.game_model.specs.Query.{states};
ghost use Rattle.game_model.specs.Limits.{unit};
ghost use Rattle.game_model.specs.Dual.{IsZeroSet};
ghost use Rattle.game_model.specs.Rounded.{IsInductive};
ghost use Rattle.inductive_check.specs.Replies.{AreReplies, AreFirstReplies};
ghost use Rattle.almost_sure.specs.Values.{AreAlmostSure};
ghost use Rattle.solved_plans.specs.Bounds.{counted, IsUpperOf};

use crate::laws::bounds_of_no_entry_are_inductive;
use crate::tables::{counted_of, upper_table};
use game_model::{Marks, Question};
use game_outside::OutOfMemory;
use inductive_check::{check_upper, replies};
use std::alloc::Global;

/// An upper table comes with the replies to it.
#[derive(Drop)]
pub struct Held {
    /// This is the table.
    pub values: Vec<u64>,
    /// These are the minimiser's choices.
    pub replies: Vec<Option<u32>>,
}

/// Returns the upper table of a candidate if it is inductive, and else that of an empty candidate, with the first
/// replies to it. The only error is that memory ran out.
pub fn held_table(
    alloc: Global,
    question: &Question,
    sure: &Marks,
    zero: &Marks,
    candidate: &[u64],
) -> Result<Held, OutOfMemory>
    requires sure { AreAlmostSure question.now sure.now }
    requires zero { IsZeroSet question.now zero.now }
    ensures units { IfOk result (λ held. All (λ v. v ≤ unit) held.values.items) }
    ensures inductive { IfOk result (λ held. IsInductive question.now (slice_index held.values.items)) }
    ensures first { IfOk result (λ held. AreFirstReplies question.now
        (slice_index held.values.items) held.replies.items) }
    ensures good { IfOk result (λ held. AreReplies question.now (slice_index held.values.items) held.replies.items) }
    ensures values { IfOk result (λ held. IsUpperOf question.now sure.now zero.now
        (counted (states question.now) candidate.now) held.values.items) }
{
    let values = inductive_table(alloc, question, sure, zero, candidate)?;
    let replies = replies(alloc, question, &values)?;
    Ok(Held { values, replies })
}

// Returns only the table.
fn inductive_table(
    alloc: Global,
    question: &Question,
    sure: &Marks,
    zero: &Marks,
    candidate: &[u64],
) -> Result<Vec<u64>, OutOfMemory>
    requires sure { AreAlmostSure question.now sure.now }
    requires zero { IsZeroSet question.now zero.now }
    ensures units { IfOk result (λ table. All (λ v. v ≤ unit) table.items) }
    ensures inductive { IfOk result (λ table. IsInductive question.now (slice_index table.items)) }
    ensures values { IfOk result (λ table. IsUpperOf question.now sure.now zero.now
        (counted (states question.now) candidate.now) table.items) }
{
    question.invariant();
    let table = upper_table(alloc, question, sure, zero, counted_of(question, candidate))?;
    if check_upper(question, &table).is_ok() {
        return Ok(table);
    }
    let weakest = upper_table(alloc, question, sure, zero, &[])?;
    bounds_of_no_entry_are_inductive(question, sure, zero, &weakest);
    Ok(weakest)
}
