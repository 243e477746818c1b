//! This module divides parts into components.

ghost use Rattle.std.specs.Prelude.{◌≡◌, ℕ, ◌<◌, ◌≤◌, ◌+◌, List, [], ◌∷◌, ◌++◌, length, slice_index, IfOk, OnOk};
ghost use Rattle.game_model.specs.Limits.{most_states};
ghost use Rattle.trap_sets.specs.inside.OfReplyMdp.{KeepsEndsOf};
ghost use Rattle.trap_sets.specs.inside.Parts.{IsRooted};
ghost use Rattle.trap_sets.specs.inside.Naming.{IsNaming};

use crate::internal::Internal;
use crate::reply_mdp::ReplyMdp;
use game_outside::OutOfMemory;
use std::alloc::Global;

/// Divides these parts into the components of their internal choices.
pub fn divided(alloc: Global, mdp: &ReplyMdp<'_>, part: &[u32]) -> Result<Vec<u32>, OutOfMemory>
    requires { KeepsEndsOf mdp.now part.now }
    ensures { IfOk result (λ class. KeepsEndsOf mdp.now class.items) }
{
    let internal = Internal::of_parts(alloc, mdp, part)?;
    let class = internal.divided(alloc)?;
    Ok(class)
}

/// Names each part after its first state, because the state after which it was named may have been removed.
pub fn renamed(alloc: Global, mdp: &ReplyMdp<'_>, part: &[u32]) -> Result<Vec<u32>, OutOfMemory>
    requires keeps { KeepsEndsOf mdp.now part.now }
    ensures keeps { IfOk result (λ class. KeepsEndsOf mdp.now class.items) }
    ensures rooted { IfOk result (λ class. IsRooted class.items) }
{
    let _ = mdp;
    let greatest = greatest_of(part);
    let mut names = vec![in alloc; 0u32; greatest as usize + 1]?;
    let mut class = Vec::new(alloc);
    name_all(part, &mut names, &mut class)?;
    Ok(class)
}

/// Returns the greatest number of a list, or 0 if the list is empty.
fn greatest_of(part: &[u32]) -> u32
    ensures { (s : ℕ) → s < length part.now → slice_index part.now s ≤ result }
{
    part.iter().copied().max().unwrap_or(0)
}

/// Gives each state that has a part the name of its part.
fn name_all(part: &[u32], names: &mut [u32], class: &mut Vec<u32>) -> Result<(), OutOfMemory>
    requires few { length part.now ≤ most_states }
    requires room { (s : ℕ) → s < length part.now → slice_index part.now s < length names.old }
    requires naming { IsNaming part.now names.old class.old.items 0 }
    ensures { OnOk result (IsNaming part.now names.new class.new.items (length part.now)) }
{
    for place in 0..part.len() {
        class.push(name_of(part, place as u32, names))?;
    }
    Ok(())
}

/// Returns the name of a state's part: one more than its first state. A state without a part has no name.
fn name_of(part: &[u32], state: u32, names: &mut [u32]) -> u32
    requires state { state < length part.now }
    requires few { length part.now ≤ most_states }
    requires room { slice_index part.now state < length names.old }
    ensures naming { (class : List ℕ) → IsNaming part.now names.old class state
        → IsNaming part.now names.new (class ++ result ∷ []) (state + 1) }
    ensures room { length names.new ≡ length names.old }
{
    let own = part[state as usize] as usize;
    if own == 0 {
        return 0;
    }
    if names[own] == 0 {
        names[own] = state + 1;
        return state + 1;
    }
    names[own]
}
