//! This module numbers the traps.

ghost use Rattle.std.specs.Prelude.{◌≡◌, ◌+◌, ◌<◌, ◌≤◌, length, IfOk};
ghost use Rattle.game_model.specs.Limits.{most_states};
ghost use Rattle.game_model.specs.Query.{states};
ghost use Rattle.predecessors.specs.Lists.{ArePredecessors};
ghost use Rattle.trap_sets.specs.Ends.{AreTraps};
ghost use Rattle.trap_sets.specs.inside.Roots.{AreNumbers, number, roots, roots_below};
ghost use Rattle.trap_sets.specs.inside.Parts.{IsRooted};
ghost use Rattle.trap_sets.specs.inside.OfReplyMdp.{AreSettledOf};

use crate::reply_mdp::ReplyMdp;
use crate::rounds::settled_parts;
use game_model::Question;
use game_outside::OutOfMemory;
use predecessors::Predecessors;
use std::alloc::Global;

/// A trap of a question is a set of states, none of them goal or dead, in which play can stay for ever and come from
/// each state to each other, and that lies in no larger such set. The traps are the greatest end components (de Alfaro,
/// Formal verification of probabilistic systems, 1997, chapter 3) of the question in which the minimiser plays its
/// replies.
#[derive(Drop)]
pub struct TrapSets {
    /// This is the trap of each state, numbered from 1 by least state, and 0 if the state is in none.
    pub of: Vec<u32>,
    /// This is the number of traps.
    pub count: u32,
}

/// Finds the traps of a question whose minimiser plays these replies. They are exactly the greatest end components,
/// numbered by least state, so every end component lies in one. The replies of other states are not read, and a state
/// of the minimiser with no reply in range is in no trap. The only error is that memory ran out.
pub fn traps(
    alloc: Global,
    question: &Question,
    replies: &[Option<u32>],
) -> Result<TrapSets, OutOfMemory>
    requires as_many { length replies.now ≡ states question.now }
    ensures { IfOk result (λ sets. AreTraps question.now replies.now sets.of.items sets.count) }
{
    let predecessors = Predecessors::of_game(alloc, question.game())?;
    traps_over(alloc, question, &predecessors, replies)
}

/// Finds the traps as [`traps`] does, over lists of predecessors that the caller has. The only error is that memory ran
/// out.
pub fn traps_over(
    alloc: Global,
    question: &Question,
    predecessors: &Predecessors,
    replies: &[Option<u32>],
) -> Result<TrapSets, OutOfMemory>
    requires as_many { length replies.now ≡ states question.now }
    requires lists { ArePredecessors question.now.game predecessors.now }
    ensures { IfOk result (λ sets. AreTraps question.now replies.now sets.of.items sets.count) }
{
    question.invariant();
    let mdp = ReplyMdp {
        question,
        replies,
        predecessors,
    };
    let part = settled_parts(alloc, &mdp)?;
    numbered(alloc, &mdp, &part)
}

/// Numbers the parts by their least states, which are their roots.
fn numbered(alloc: Global, mdp: &ReplyMdp<'_>, part: &[u32]) -> Result<TrapSets, OutOfMemory>
    requires { AreSettledOf mdp.now part.now }
    ensures { IfOk result (λ sets. AreTraps mdp.now.question.now mdp.now.replies.now sets.of.items sets.count) }
{
    let _ = mdp;
    let sets = number_all(alloc, part)?;
    Ok(sets)
}

/// Returns the number of each state's part, and how many parts there are.
fn number_all(alloc: Global, part: &[u32]) -> Result<TrapSets, OutOfMemory>
    requires few { length part.now ≤ most_states }
    requires rooted { IsRooted part.now }
    ensures numbers { IfOk result (λ sets. AreNumbers part.now sets.of.items (length part.now)) }
    ensures count { IfOk result (λ sets. sets.count ≡ roots part.now) }
{
    let mut of = Vec::new(alloc);
    let mut count = 0;
    for place in 0..part.len() {
        if part[place] as usize == place + 1 {
            count += 1;
        }
        of.push(number_of(part, &of, place, count))?;
    }
    Ok(TrapSets { of, count })
}

/// Returns the number of the part of the next state. The numbers of the states before it are found, and the roots up to
/// it are counted.
fn number_of(part: &[u32], of: &[u32], state: usize, count: u32) -> u32
    requires state { state < length part.now }
    requires rooted { IsRooted part.now }
    requires before { AreNumbers part.now of.now state }
    requires count { count ≡ roots_below part.now (state + 1) }
    ensures { result ≡ number part.now state }
{
    let own = part[state] as usize;
    if own == 0 {
        return 0;
    }
    if own == state + 1 {
        return count;
    }
    of[own - 1]
}
