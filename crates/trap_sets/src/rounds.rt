//! This module divides the states into end components, in rounds.

ghost use Rattle.std.specs.Prelude.{◌≡◌, ◌<◌, length, IfOk, OnOk};
ghost use Rattle.game_model.specs.Query.{states};
ghost use Rattle.trap_sets.specs.inside.OfReplyMdp.{states_in, KeepsEndsOf, AreJoinedIn, AreSettledOf, IsKeptIn};
ghost use Rattle.trap_sets.specs.inside.Parts.{IsRooted};
ghost use Rattle.trap_sets.specs.inside.Settled.{IsOpening};

use crate::breaking::break_up;
use crate::divide::{divided, renamed};
use crate::reply_mdp::ReplyMdp;
use crate::trim::trim;
use game_model::Question;
use game_outside::OutOfMemory;
use std::alloc::Global;

/// Returns the greatest parts that are end components. The first loop finds them: each of its rounds takes a state out
/// or breaks up a part. The second loop, which ends whatever the searches do, then has nothing to do.
pub fn settled_parts(alloc: Global, mdp: &ReplyMdp<'_>) -> Result<Vec<u32>, OutOfMemory>
    ensures { IfOk result (λ part. AreSettledOf mdp.now part.items) }
{
    let mut part = opening(alloc, mdp)?;
    trim(alloc, mdp, &mut part)?;
    for round in 0..mdp.question.game().states() {
        if round % 2 == 0 {
            part = divided(alloc, mdp, &part)?;
        }
        trim(alloc, mdp, &mut part)?;
        part = renamed(alloc, mdp, &part)?;
        if !break_up(alloc, mdp, &mut part)? {
            return without_exits(alloc, mdp, &part);
        }
    }
    part = renamed(alloc, mdp, &part)?;
    break_all(alloc, mdp, &mut part)?;
    without_exits(alloc, mdp, &part)
}

/// Breaks up parts until the states of each reach each other.
fn break_all(alloc: Global, mdp: &ReplyMdp<'_>, part: &mut [u32]) -> Result<(), OutOfMemory>
    requires keeps { KeepsEndsOf mdp.now part.old }
    requires rooted { IsRooted part.old }
    ensures keeps { OnOk result (KeepsEndsOf mdp.now part.new) }
    ensures rooted { OnOk result (IsRooted part.new) }
    ensures joined { OnOk result (AreJoinedIn mdp.now part.new) }
{
    let mut breaks = true;
    while breaks {
        breaks = break_up(alloc, mdp, part)?;
    }
    Ok(())
}

/// Returns the parts without the states that have no internal choice. Each of these is the only one in its part.
fn without_exits(alloc: Global, mdp: &ReplyMdp<'_>, part: &[u32]) -> Result<Vec<u32>, OutOfMemory>
    requires keeps { KeepsEndsOf mdp.now part.now }
    requires rooted { IsRooted part.now }
    requires joined { AreJoinedIn mdp.now part.now }
    ensures { IfOk result (λ kept. AreSettledOf mdp.now kept.items) }
{
    let states = mdp.question.game().states();
    let mut kept = Vec::with_capacity(alloc, states as usize)?;
    for state in 0..states {
        kept.push(kept_part(mdp, part, state))?;
    }
    Ok(kept)
}

/// Returns the part of a state that has an internal choice, and none for any other state.
fn kept_part(mdp: &ReplyMdp<'_>, part: &[u32], state: u32) -> u32
    requires state { state < states_in mdp.now }
    requires many { length part.now ≡ states_in mdp.now }
    ensures { IsKeptIn mdp.now part.now state result }
{
    if mdp.next_internal(part, state, 0) < mdp.question.game().choices_of(state) {
        part[state as usize]
    } else {
        0
    }
}

/// Makes one part of all states that are neither goal nor dead.
fn opening(alloc: Global, mdp: &ReplyMdp<'_>) -> Result<Vec<u32>, OutOfMemory>
    ensures { IfOk result (λ part. KeepsEndsOf mdp.now part.items) }
{
    let mut part = Vec::new(alloc);
    for state in 0..mdp.question.game().states() {
        part.push(opening_part(mdp.question, state))?;
    }
    Ok(part)
}

/// Returns 1 for a state that is neither goal nor dead, and 0 for any other state.
fn opening_part(question: &Question, state: u32) -> u32
    requires { state < states question.now }
    ensures { IsOpening question.now state result }
{
    if question.is_goal(state) || question.is_dead(state) {
        return 0;
    }
    1
}
