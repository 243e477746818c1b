//! This module breaks up parts whose states do not all reach each other.

ghost use Rattle.std.specs.Prelude.{◌≡◌, ◌≢◌, ℕ, ◌+◌, ◌<◌, ◌≤◌, true, false, length, slice_index, slice_index_or, IfOk, OnOk, IfSome, MatchOption};
ghost use Rattle.game_model.specs.Limits.{most_states};
ghost use Rattle.trap_sets.specs.inside.OfReplyMdp.{states_in, KeepsEndsOf, AreJoinedIn, IsBreakOf};
ghost use Rattle.trap_sets.specs.inside.Parts.{IsRooted};
ghost use Rattle.trap_sets.specs.inside.Roots.{roots};

use crate::internal::Internal;
use crate::reach::{Way, reached};
use crate::reply_mdp::ReplyMdp;
use game_outside::OutOfMemory;
use std::alloc::Global;

/// These marks break up the part of a state.
#[derive(Drop)]
struct Break {
    marks: Vec<bool>,
    state: u32,
}

/// Breaks up a part whose states do not all reach each other, and returns whether there was one.
pub fn break_up(alloc: Global, mdp: &ReplyMdp<'_>, part: &mut [u32]) -> Result<bool, OutOfMemory>
    requires keeps { KeepsEndsOf mdp.now part.old }
    requires rooted { IsRooted part.old }
    ensures keeps { OnOk result (KeepsEndsOf mdp.now part.new) }
    ensures rooted { OnOk result (IsRooted part.new) }
    ensures joined { IfOk result (λ breaks. breaks ≡ false → AreJoinedIn mdp.now part.new) }
    ensures more { IfOk result (λ breaks. breaks ≡ true → roots part.old < roots part.new) }
{
    match find_break(alloc, mdp, part)? {
        Some(found) => {
            split_off(mdp, part, &found.marks, found.state);
            Ok(true)
        }
        None => Ok(false),
    }
}

/// Looks for a part whose root is not reached from all its states, or does not reach them all.
fn find_break(alloc: Global, mdp: &ReplyMdp<'_>, part: &[u32]) -> Result<Option<Break>, OutOfMemory>
    requires keeps { KeepsEndsOf mdp.now part.now }
    requires rooted { IsRooted part.now }
    ensures { IfOk result (λ found. MatchOption found (AreJoinedIn mdp.now part.now)
        (λ b. IsBreakOf mdp.now part.now b.marks.items b.state)) }
{
    let internal = Internal::of_parts(alloc, mdp, part)?;
    let found = search_break(alloc, &internal)?;
    Ok(found)
}

/// Searches back from the roots of all parts, and then on from them.
fn search_break(alloc: Global, internal: &Internal<'_>) -> Result<Option<Break>, OutOfMemory>
    requires keeps { KeepsEndsOf internal.now.mdp internal.now.part.now }
    requires rooted { IsRooted internal.now.part.now }
    ensures { IfOk result (λ found. MatchOption found (AreJoinedIn internal.now.mdp internal.now.part.now)
        (λ b. IsBreakOf internal.now.mdp internal.now.part.now b.marks.items b.state)) }
{
    let back = reached(alloc, internal, Way::Back)?;
    if let Some(state) = first_unmarked(internal.part, &back) {
        return Ok(Some(Break { marks: back, state }));
    }
    let on = reached(alloc, internal, Way::On)?;
    if let Some(state) = first_unmarked(internal.part, &on) {
        return Ok(Some(Break { marks: on, state }));
    }
    Ok(None)
}

/// Returns the first state that has a part and no mark.
fn first_unmarked(part: &[u32], marks: &[bool]) -> Option<u32>
    requires few { length part.now ≤ most_states }
    requires many { length marks.now ≡ length part.now }
    ensures { MatchOption result ((s : ℕ) → slice_index part.now s ≢ 0 → slice_index_or marks.now s false ≡ true)
        (λ s. (slice_index part.now s ≢ 0) × (slice_index_or marks.now s false ≡ false)
        × ((t : ℕ) → t < s → slice_index part.now t ≢ 0 → slice_index_or marks.now t false ≡ true)) }
{
    for place in 0..part.len() {
        if part[place] != 0 && !marks[place] {
            return Some(place as u32);
        }
    }
    None
}

/// Makes a part of the unmarked states of a state's part, and names it after this state.
fn split_off(mdp: &ReplyMdp<'_>, part: &mut [u32], marks: &[bool], state: u32)
    requires keeps { KeepsEndsOf mdp.now part.old }
    requires rooted { IsRooted part.old }
    requires breaks { IsBreakOf mdp.now part.old marks.now state }
    ensures keeps { KeepsEndsOf mdp.now part.new }
    ensures rooted { IsRooted part.new }
    ensures more { roots part.old < roots part.new }
{
    let _ = mdp;
    let own = part[state as usize];
    for place in 0..part.len() {
        if part[place] == own && !marks[place] {
            part[place] = state + 1;
        }
    }
}
