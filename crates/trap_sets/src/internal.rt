//! This module finds the internal choices of given parts, once, and divides the parts into components over them.

ghost use Rattle.std.specs.Prelude.{◌≡◌, ◌<◌, length};
ghost use Rattle.game_model.specs.Game.{choices_of};
ghost use Rattle.game_model.specs.Limits.{most_states};
ghost use Rattle.game_model.specs.Query.{states};
ghost use Rattle.predecessors.specs.Flags.{AreFlags};
ghost use Rattle.trap_sets.specs.inside.Parts.{IsInternal};
ghost use Rattle.trap_sets.specs.inside.OfReplyMdp.{states_in};
ghost use Rattle.trap_sets.specs.inside.Naming.{IsClass};

use crate::reply_mdp::ReplyMdp;
use components::component_numbers;
use game_outside::OutOfMemory;
use predecessors::ChoiceFlags;
use std::alloc::Global;

/// These are the parts of an MDP of the replies. For each choice, in the order of the game, a flag says whether it is
/// internal.
#[derive(Drop)]
pub struct Internal<'a> {
    pub mdp: ReplyMdp<'a>,
    pub part: &'a [u32],
    flags: ChoiceFlags,
    ghost parted: { length part.now ≡ states mdp.question.now },
    ghost flagged: { AreFlags mdp.question.now.game (IsInternal mdp.question.now mdp.replies.now part.now) flags },
}

impl<'a> Internal<'a> {
    ghost use Rattle.std.specs.Prelude.{ℕ, ◌≤◌, ◌↔◌, IsTrue, IfOk, slice_index};
    ghost use Rattle.trap_sets.specs.inside.OfReplyMdp.{KeepsEndsOf};
    ghost use Rattle.trap_sets.specs.inside.OfInternal.{states_of, IsInternalOf};

    /// Finds the internal choices of these parts. Each choice is tested once.
    pub fn of_parts(
        alloc: Global,
        mdp: &ReplyMdp<'a>,
        part: &'a [u32],
    ) -> Result<Internal<'a>, OutOfMemory>
        requires { length part.now ≡ states_in mdp.now }
        ensures mdp { IfOk result (λ internal. internal.mdp ≡ mdp.now) }
        ensures part { IfOk result (λ internal. internal.part.now ≡ part.now) }
    {
        let flags = ChoiceFlags::of_game(alloc, mdp.question.game(), |state, choice| {
            mdp.is_internal(part, state, choice)
        })?;
        Ok(Internal {
            mdp: *mdp,
            part,
            flags,
        })
    }

    /// Gives each state with a part the number of its component over the internal choices, counted from 1.
    pub fn divided(&self, alloc: Global) -> Result<Vec<u32>, OutOfMemory>
        requires { KeepsEndsOf self.now.mdp self.now.part.now }
        ensures { IfOk result (λ class. KeepsEndsOf self.now.mdp class.items) }
    {
        let component = component_numbers(alloc, self.mdp.question, &self.flags)?;
        let mut class = Vec::with_capacity(alloc, component.len())?;
        for place in 0..self.part.len() {
            class.push(class_of(self.part[place], component[place]))?;
        }
        Ok(class)
    }

    /// Returns whether a choice is internal.
    pub fn has(&self, state: u32, choice: u32) -> bool
        requires state { state < states_of self.now }
        requires choice { choice < length (choices_of self.now.mdp.question.now.game state) }
        ensures { IsTrue result ↔ IsInternalOf self.now state choice }
    {
        self.flags.has(self.mdp.question.game(), state, choice)
    }
}

/// Counts a component from 1 for a state with a part. A state without a part is in none.
fn class_of(own: u32, component: u32) -> u32
    requires { component < most_states }
    ensures { IsClass own component result }
{
    if own == 0 {
        return 0;
    }
    component + 1
}
