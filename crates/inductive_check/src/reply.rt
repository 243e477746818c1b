//! This module gives and checks replies of the minimiser to an upper table.

ghost use Rattle.std.specs.Prelude.{◌≡◌, ◌<◌, ◌≤◌, ◌↔◌, length, slice_index, All, IsTrue, IsOk, IfOk, IfErr};
ghost use Rattle.game_model.specs.Query.{states};
ghost use Rattle.game_model.specs.Limits.{unit};
ghost use Rattle.game_model.specs.Rounded.{IsInductive};
ghost use Rattle.inductive_check.specs.Replies.{NeedsReply, IsReply, AreReplies, IsFirstWithoutReply, IsFirstReply, AreFirstReplies, HoldsUnder};

use crate::held::{first_held, is_held};
use crate::laws::replies_hold;
use crate::upper::{UpperCause, UpperFault};
use game_model::{Question, Side};
use game_outside::OutOfMemory;
use std::alloc::Global;

/// Checks replies, one for each state, to a table that [`crate::check_upper`] passes: the reply of each state of the
/// minimiser that is neither goal nor dead is a choice that is held to its entry. The replies of other states are not
/// read. Then the minimiser who plays them holds every opponent to the table at every horizon. Else the fault names the
/// first state with no such reply. It takes no memory.
pub fn check_replies(
    question: &Question,
    upper: &[u64],
    replies: &[Option<u32>],
) -> Result<(), UpperFault>
    requires length { length upper.now ≡ states question.now }
    requires units { All (λ v. v ≤ unit) upper.now }
    requires inductive { IsInductive question.now (slice_index upper.now) }
    requires as_many { length replies.now ≡ states question.now }
    ensures ok { IsOk result ↔ AreReplies question.now (slice_index upper.now) replies.now }
    ensures holds { IsOk result → HoldsUnder question.now replies.now (slice_index upper.now) }
    ensures cause { IfErr result (λ fault. fault.cause ≡ UpperCause.Reply) }
    ensures state { IfErr result (λ fault. IsFirstWithoutReply question.now
        (slice_index upper.now) replies.now fault.state) }
{
    for state in 0..question.game().states() {
        if !answers(question, upper, state, replies[state as usize]) {
            return Err(UpperFault {
                state,
                cause: UpperCause::Reply,
            });
        }
    }
    replies_hold(question, upper, replies);
    Ok(())
}

/// Returns whether a reply is held to the entry of its state, if the state needs one.
fn answers(question: &Question, upper: &[u64], state: u32, reply: Option<u32>) -> bool
    requires length { length upper.now ≡ states question.now }
    requires units { All (λ v. v ≤ unit) upper.now }
    requires state { state < states question.now }
    ensures { IsTrue result ↔ (NeedsReply question.now state
        → IsReply question.now (slice_index upper.now) state reply) }
{
    if !needs_reply(question, state) {
        return true;
    }
    match reply {
        Some(choice) => {
            choice < question.game().choices_of(state) && is_held(question, upper, state, choice)
        }
        None => false,
    }
}

/// Returns whether a state is one of the minimiser, and neither goal nor dead.
fn needs_reply(question: &Question, state: u32) -> bool
    requires { state < states question.now }
    ensures { IsTrue result ↔ NeedsReply question.now state }
{
    if question.is_goal(state) || question.is_dead(state) {
        return false;
    }
    match question.side(state) {
        Side::Max => false,
        Side::Min => true,
    }
}

/// Returns the first replies to a table that [`crate::check_upper`] passes: for each state of the minimiser that is
/// neither goal nor dead the first choice that is held to its entry, and none for each other state. The minimiser who
/// plays them holds every opponent to the table at every horizon. The only error is that memory ran out.
pub fn replies(
    alloc: Global,
    question: &Question,
    upper: &[u64],
) -> Result<Vec<Option<u32>>, OutOfMemory>
    requires length { length upper.now ≡ states question.now }
    requires units { All (λ v. v ≤ unit) upper.now }
    requires inductive { IsInductive question.now (slice_index upper.now) }
    ensures first { IfOk result (λ replies. AreFirstReplies question.now (slice_index upper.now) replies.items) }
    ensures good { IfOk result (λ replies. AreReplies question.now (slice_index upper.now) replies.items) }
    ensures holds { IfOk result (λ replies. HoldsUnder question.now replies.items (slice_index upper.now)) }
{
    let mut replies = Vec::new(alloc);
    for state in 0..question.game().states() {
        replies.push(reply_of(question, upper, state))?;
    }
    replies_hold(question, upper, &replies);
    Ok(replies)
}

/// Returns the first choice of a state that is held to its entry, if the state needs a reply.
fn reply_of(question: &Question, upper: &[u64], state: u32) -> Option<u32>
    requires length { length upper.now ≡ states question.now }
    requires units { All (λ v. v ≤ unit) upper.now }
    requires inductive { IsInductive question.now (slice_index upper.now) }
    requires state { state < states question.now }
    ensures { IsFirstReply question.now (slice_index upper.now) state result }
{
    question.invariant();
    if !needs_reply(question, state) {
        return None;
    }
    first_held(question, upper, state)
}
