//! This module has a question whose minimiser plays its replies.

ghost use Rattle.std.specs.Prelude.{◌≡◌, length};
ghost use Rattle.game_model.specs.Query.{IsQuery, states};
ghost use Rattle.predecessors.specs.Lists.{ArePredecessors};

use crate::choices::stays;
use game_model::{Question, Side};
use predecessors::Predecessors;

/// In the MDP of the replies each state of the minimiser has only its reply. It comes with the moves that lead to each
/// state.
#[derive(Clone, Copy)]
pub struct ReplyMdp<'a> {
    pub question: &'a Question<'a>,
    pub replies: &'a [Option<u32>],
    pub predecessors: &'a Predecessors,
    ghost posed: { IsQuery question.now },
    ghost replied: { length replies.now ≡ states question.now },
    ghost lists: { ArePredecessors question.now.game predecessors.now },
}

impl ReplyMdp<'_> {
    ghost use Rattle.std.specs.Prelude.{ℕ, ◌<◌, ◌≤◌, ◌↔◌, IsTrue};
    ghost use Rattle.game_model.specs.Game.{choices_of};
    ghost use Rattle.trap_sets.specs.Moves.{IsReplyMdp};
    ghost use Rattle.trap_sets.specs.inside.OfReplyMdp.{states_in, IsInternalIn};

    /// Returns whether a choice is one of the MDP of the replies. A state of the minimiser has only its reply.
    fn has(&self, state: u32, choice: u32) -> bool
        requires state { state < states_in self.now }
        requires choice { choice < length (choices_of self.now.question.now.game state) }
        ensures { IsTrue result ↔ IsReplyMdp self.now.question.now self.now.replies.now state choice }
    {
        match self.question.side(state) {
            Side::Max => true,
            Side::Min => match self.replies[state as usize] {
                Some(reply) => reply == choice,
                None => false,
            },
        }
    }

    /// Returns whether a choice is internal: it is one of the MDP of the replies, at a state with a part, and stays in
    /// this part.
    pub(crate) fn is_internal(&self, part: &[u32], state: u32, choice: u32) -> bool
        requires state { state < states_in self.now }
        requires choice { choice < length (choices_of self.now.question.now.game state) }
        requires part { length part.now ≡ states_in self.now }
        ensures { IsTrue result ↔ IsInternalIn self.now part.now state choice }
    {
        part[state as usize] != 0
            && self.has(state, choice)
            && stays(self.question, part, state, choice)
    }

    /// Returns the first internal choice of a state, from this one on, or the number of choices if there is none.
    pub fn next_internal(&self, part: &[u32], state: u32, from: u32) -> u32
        requires state { state < states_in self.now }
        requires from { from ≤ length (choices_of self.now.question.now.game state) }
        requires part { length part.now ≡ states_in self.now }
        ensures from { from ≤ result }
        ensures within { result ≤ length (choices_of self.now.question.now.game state) }
        ensures before { (c : ℕ) → from ≤ c → c < result → ¬ IsInternalIn self.now part.now state c }
        ensures found { result < length (choices_of self.now.question.now.game state)
            → IsInternalIn self.now part.now state result }
    {
        let count = self.question.game().choices_of(state);
        for choice in from..count {
            if self.is_internal(part, state, choice) {
                return choice;
            }
        }
        count
    }
}
