//! This module lowers upper tables to the best exits of traps.

ghost use Rattle.std.specs.Prelude.{◌≡◌, ◌≢◌, ℕ, ◌+◌, ◌<◌, ◌≤◌, length, slice_index, All, IfOk};
ghost use Rattle.game_model.specs.Game.{choices_of};
ghost use Rattle.game_model.specs.Query.{states};
ghost use Rattle.game_model.specs.Limits.{unit};
ghost use Rattle.game_model.specs.Rounded.{IsBelow, IsInductive};
ghost use Rattle.game_model.specs.Bounds.{IsHigh};
ghost use Rattle.inductive_check.specs.Replies.{AreReplies, HoldsUnder};
ghost use Rattle.predecessors.specs.Lists.{ArePredecessors};
ghost use Rattle.trap_sets.specs.Exits.{IsBestBefore, AreBestExits};
ghost use Rattle.trap_sets.specs.Lowered.{IsLoweredEntry, IsLowered, IsLoweredTable, IsCapped};

use crate::arena::Table;
use crate::choices::stays;
use crate::numbers::{TrapSets, traps_over};
use fixed_bellman::up_choice;
use game_laws::tables::inductive_is_high;
use game_model::{Question, Side};
use game_outside::OutOfMemory;
use inductive_check::laws::replies_hold;
use predecessors::Predecessors;
use std::alloc::Global;

/// Lowers the table at the states of each trap to the trap's best exit over the given table. The lowered table passes
/// the check that the table passed, with the same replies, so it is above every k-step value. The only error is that
/// memory ran out.
pub fn lower_traps(
    alloc: Global,
    question: &Question,
    upper: &[u64],
    replies: &[Option<u32>],
) -> Result<Vec<u64>, OutOfMemory>
    requires length { length upper.now ≡ states question.now }
    requires units { All (λ v. v ≤ unit) upper.now }
    requires inductive { IsInductive question.now (slice_index upper.now) }
    requires as_many { length replies.now ≡ states question.now }
    requires replies { AreReplies question.now (slice_index upper.now) replies.now }
    ensures lowered { IfOk result (λ table. IsLoweredTable question.now replies.now upper.now table.items) }
    ensures capped { IfOk result (λ table. IsCapped question.now replies.now upper.now table.items) }
    ensures below { IfOk result (λ table. IsBelow question.now (slice_index table.items) (slice_index upper.now)) }
    ensures units { IfOk result (λ table. All (λ v. v ≤ unit) table.items) }
    ensures inductive { IfOk result (λ table. IsInductive question.now (slice_index table.items)) }
    ensures high { IfOk result (λ table. IsHigh question.now (slice_index table.items)) }
    ensures replies { IfOk result (λ table. AreReplies question.now (slice_index table.items) replies.now) }
    ensures holds { IfOk result (λ table. HoldsUnder question.now replies.now (slice_index table.items)) }
{
    let predecessors = Predecessors::of_game(alloc, question.game())?;
    lower_traps_over(alloc, question, &predecessors, upper, replies)
}

/// Lowers the table as [`lower_traps`] does, over lists of predecessors that the caller has. The only error is that
/// memory ran out.
pub fn lower_traps_over(
    alloc: Global,
    question: &Question,
    predecessors: &Predecessors,
    upper: &[u64],
    replies: &[Option<u32>],
) -> Result<Vec<u64>, OutOfMemory>
    requires lists { ArePredecessors question.now.game predecessors.now }
    requires length { length upper.now ≡ states question.now }
    requires units { All (λ v. v ≤ unit) upper.now }
    requires inductive { IsInductive question.now (slice_index upper.now) }
    requires as_many { length replies.now ≡ states question.now }
    requires replies { AreReplies question.now (slice_index upper.now) replies.now }
    ensures lowered { IfOk result (λ table. IsLoweredTable question.now replies.now upper.now table.items) }
    ensures capped { IfOk result (λ table. IsCapped question.now replies.now upper.now table.items) }
    ensures below { IfOk result (λ table. IsBelow question.now (slice_index table.items) (slice_index upper.now)) }
    ensures units { IfOk result (λ table. All (λ v. v ≤ unit) table.items) }
    ensures inductive { IfOk result (λ table. IsInductive question.now (slice_index table.items)) }
    ensures high { IfOk result (λ table. IsHigh question.now (slice_index table.items)) }
    ensures replies { IfOk result (λ table. AreReplies question.now (slice_index table.items) replies.now) }
    ensures holds { IfOk result (λ table. HoldsUnder question.now replies.now (slice_index table.items)) }
{
    question.invariant();
    let sets = traps_over(alloc, question, predecessors, replies)?;
    let handed = Table {
        question,
        entries: upper,
    };
    let exits = best_exits(alloc, &handed, &sets)?;
    let table = lowered(alloc, &handed, &sets.of, &exits)?;
    inductive_is_high(question, &table);
    replies_hold(question, &table, replies);
    Ok(table)
}

/// Returns the best exit of each trap.
fn best_exits(alloc: Global, upper: &Table<'_>, sets: &TrapSets) -> Result<Vec<u64>, OutOfMemory>
    requires many { length sets.now.of.items ≡ states upper.now.question.now }
    requires most { (s : ℕ) → slice_index sets.now.of.items s ≤ sets.now.count }
    ensures many { IfOk result (λ exits. length exits.items ≡ sets.now.count + 1) }
    ensures best { IfOk result (λ exits. AreBestExits upper.now.question.now
        (slice_index upper.now.entries.now) sets.now.of.items exits.items) }
{
    let mut exits = vec![in alloc; 0u64; sets.count as usize + 1]?;
    for state in 0..upper.question.game().states() {
        raise_exit(upper, &sets.of, state, &mut exits);
    }
    Ok(exits)
}

/// Raises the best exit of the trap of a state to the exits of the state.
fn raise_exit(upper: &Table<'_>, of: &[u32], state: u32, exits: &mut [u64])
    requires many { length of.now ≡ states upper.now.question.now }
    requires most { slice_index of.now state < length exits.old }
    requires state { state < states upper.now.question.now }
    requires best { IsBestBefore upper.now.question.now (slice_index upper.now.entries.now) of.now exits.old state 0 }
    ensures { IsBestBefore upper.now.question.now (slice_index upper.now.entries.now) of.now exits.new (state + 1) 0 }
{
    let trap = of[state as usize] as usize;
    if trap == 0 {
        return;
    }
    match upper.question.side(state) {
        Side::Min => return,
        Side::Max => {}
    }
    for choice in 0..upper.question.game().choices_of(state) {
        if !stays(upper.question, of, state, choice) {
            let value = up_choice(upper.question, state, choice, upper.entries);
            if exits[trap] < value {
                exits[trap] = value;
            }
        }
    }
}

/// Returns the table in which each entry of a trap is at most the best exit.
fn lowered(
    alloc: Global,
    upper: &Table<'_>,
    of: &[u32],
    exits: &[u64],
) -> Result<Vec<u64>, OutOfMemory>
    requires many { length of.now ≡ states upper.now.question.now }
    requires most { (s : ℕ) → slice_index of.now s < length exits.now }
    requires best { AreBestExits upper.now.question.now (slice_index upper.now.entries.now) of.now exits.now }
    ensures { IfOk result (λ table. IsLowered upper.now.question.now of.now upper.now.entries.now table.items) }
{
    let mut table = Vec::new(alloc);
    for state in 0..upper.question.game().states() {
        table.push(lowered_entry(upper, of, exits, state))?;
    }
    Ok(table)
}

/// Returns the entry of a state, and in a trap at most the best exit.
fn lowered_entry(upper: &Table<'_>, of: &[u32], exits: &[u64], state: u32) -> u64
    requires many { length of.now ≡ states upper.now.question.now }
    requires most { (s : ℕ) → slice_index of.now s < length exits.now }
    requires best { AreBestExits upper.now.question.now (slice_index upper.now.entries.now) of.now exits.now }
    requires state { state < states upper.now.question.now }
    ensures { IsLoweredEntry upper.now.question.now of.now upper.now.entries.now state result }
{
    let trap = of[state as usize];
    let entry = upper.entries[state as usize];
    if trap == 0 {
        return entry;
    }
    entry.min(exits[trap as usize])
}
