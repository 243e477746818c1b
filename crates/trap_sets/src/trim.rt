//! This module removes states that have no internal choice, as far as a search finds them.

ghost use Rattle.std.specs.Prelude.{◌≡◌, ◌<◌, length, OnOk};
ghost use Rattle.trap_sets.specs.inside.OfReplyMdp.{states_in, KeepsEndsOf};

use crate::reply_mdp::ReplyMdp;
use game_outside::OutOfMemory;
use predecessors::Move;
use std::alloc::Global;

/// Takes its part from each state that has no internal choice, and from each that has none left then, and so on. A
/// state waits for one choice at a time, so each choice is tested three times at most. The contract does not say that
/// all such states are found. One that is missed goes later.
pub fn trim(alloc: Global, mdp: &ReplyMdp<'_>, part: &mut [u32]) -> Result<(), OutOfMemory>
    requires keeps { KeepsEndsOf mdp.now part.old }
    ensures keeps { OnOk result (KeepsEndsOf mdp.now part.new) }
{
    let states = mdp.question.game().states();
    let mut next_choice = vec![in alloc; 0u32; states as usize]?;
    let mut gone = Vec::new(alloc);
    for state in 0..states {
        test(mdp, state, part, &mut next_choice, &mut gone)?;
    }
    for place in 0..states as usize {
        let Some(member) = gone.get(place).copied() else {
            break;
        };
        follow_gone(mdp, member, part, &mut next_choice, &mut gone)?;
    }
    Ok(())
}

/// Tests the states that wait for a choice that leads to this state.
fn follow_gone(
    mdp: &ReplyMdp<'_>,
    member: u32,
    part: &mut [u32],
    next_choice: &mut [u32],
    gone: &mut Vec<u32>,
) -> Result<(), OutOfMemory>
    requires many { length next_choice.old ≡ states_in mdp.now }
    requires keeps { KeepsEndsOf mdp.now part.old }
    ensures many { OnOk result (length next_choice.new ≡ states_in mdp.now) }
    ensures keeps { OnOk result (KeepsEndsOf mdp.now part.new) }
{
    if member >= mdp.question.game().states() {
        return Ok(());
    }
    for step in mdp.predecessors.of_state(member) {
        test_again(mdp, *step, part, next_choice, gone)?;
    }
    Ok(())
}

/// Tests the state of this move, if it waits for its choice.
fn test_again(
    mdp: &ReplyMdp<'_>,
    step: Move,
    part: &mut [u32],
    next_choice: &mut [u32],
    gone: &mut Vec<u32>,
) -> Result<(), OutOfMemory>
    requires state { step.state < states_in mdp.now }
    requires many { length next_choice.old ≡ states_in mdp.now }
    requires keeps { KeepsEndsOf mdp.now part.old }
    ensures many { OnOk result (length next_choice.new ≡ states_in mdp.now) }
    ensures keeps { OnOk result (KeepsEndsOf mdp.now part.new) }
{
    if next_choice[step.state as usize] != step.choice {
        return Ok(());
    }
    test(mdp, step.state, part, next_choice, gone)
}

/// Tests a state from its next choice on. The state waits for the next internal choice, and loses its part if it has
/// none at all.
fn test(
    mdp: &ReplyMdp<'_>,
    state: u32,
    part: &mut [u32],
    next_choice: &mut [u32],
    gone: &mut Vec<u32>,
) -> Result<(), OutOfMemory>
    requires state { state < states_in mdp.now }
    requires many { length next_choice.old ≡ states_in mdp.now }
    requires keeps { KeepsEndsOf mdp.now part.old }
    ensures many { OnOk result (length next_choice.new ≡ states_in mdp.now) }
    ensures keeps { OnOk result (KeepsEndsOf mdp.now part.new) }
{
    let place = state as usize;
    if part[place] == 0 {
        return Ok(());
    }
    let choices = mdp.question.game().choices_of(state);
    let next = mdp.next_internal(part, state, next_choice[place].min(choices));
    next_choice[place] = next;
    if next < choices || mdp.next_internal(part, state, 0) < choices {
        return Ok(());
    }
    part[place] = 0;
    gone.push(state)?;
    Ok(())
}
