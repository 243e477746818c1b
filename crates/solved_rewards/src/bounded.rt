//! This module finds the states that may have an upper value.

ghost use Rattle.std.specs.Prelude.{◌≡◌, ◌<◌, length, vec_len, IfOk};
ghost use Rattle.game_model.specs.Query.{states};

use crate::moves::may_be_taken;
use game_model::{Question, Side, UNIT};
use game_outside::OutOfMemory;
use predecessors::{Move, Predecessors};
use std::alloc::Global;

/// A state has no upper value once it is listed.
#[derive(Drop)]
struct BoundedSearch {
    bounded: Vec<bool>,
    gone: Vec<u32>,
}

/// Returns the greatest set of finite states whose upper value is below 10^15 units, if they are no goals, and that no
/// move leaves that may be taken. A value of 10^15 units may mean that there is none. The only error is that memory ran
/// out.
pub fn bounded_states(
    alloc: Global,
    question: &Question,
    predecessors: &Predecessors,
    finite: &[bool],
    upper: &[u64],
    replies: &[u32],
) -> Result<Vec<bool>, OutOfMemory>
    requires lists { length predecessors.now ≡ states question.now }
    requires finite { length finite.now ≡ states question.now }
    ensures { IfOk result (λ list. vec_len list ≡ states question.now) }
{
    let states = question.game().states();
    let mut search = BoundedSearch::begin(alloc, question, finite, upper, replies)?;
    for place in 0..states as usize {
        let Some(state) = search.gone.get(place).copied() else {
            break;
        };
        search.follow_to(question, predecessors, replies, state)?;
    }
    Ok(search.bounded)
}

impl BoundedSearch {
    /// Begins with the states that have an upper value by themselves.
    fn begin(
        alloc: Global,
        question: &Question,
        finite: &[bool],
        upper: &[u64],
        replies: &[u32],
    ) -> Result<BoundedSearch, OutOfMemory>
        requires { length finite.now ≡ states question.now }
        ensures { IfOk result (λ search. vec_len search.bounded ≡ states question.now) }
    {
        let states = question.game().states();
        let mut bounded = Vec::with_capacity(alloc, states as usize)?;
        let mut gone = Vec::new(alloc);
        for state in 0..states {
            let stays = finite[state as usize] && has_value(question, upper, replies, state);
            bounded.push(stays)?;
            if !stays {
                gone.push(state)?;
            }
        }
        Ok(BoundedSearch { bounded, gone })
    }

    /// Follows the moves that lead to a state that has gone.
    fn follow_to(
        &mut self,
        question: &Question,
        predecessors: &Predecessors,
        replies: &[u32],
        state: u32,
    ) -> Result<(), OutOfMemory>
        requires lists { length predecessors.now ≡ states question.now }
        ensures { vec_len self.new.bounded ≡ vec_len self.old.bounded }
    {
        if state >= question.game().states() {
            return Ok(());
        }
        for step in predecessors.of_state(state) {
            self.follow(question, replies, *step)?;
        }
        Ok(())
    }

    /// Follows a move. If it may be taken, its state goes.
    fn follow(
        &mut self,
        question: &Question,
        replies: &[u32],
        step: Move,
    ) -> Result<(), OutOfMemory>
        ensures { vec_len self.new.bounded ≡ vec_len self.old.bounded }
    {
        let place = step.state as usize;
        if place >= self.bounded.len()
            || !self.bounded[place]
            || !may_be_taken(question, replies, step)
        {
            return Ok(());
        }
        self.bounded[place] = false;
        self.gone.push(step.state)?;
        Ok(())
    }
}

/// Returns whether a state is a goal, or has an upper value below 10^15 units and a reply if the minimiser is to move.
fn has_value(question: &Question, upper: &[u64], replies: &[u32], state: u32) -> bool
    requires { state < states question.now }
{
    if question.is_goal(state) {
        return true;
    }
    let is_small = match upper.get(state as usize) {
        Some(value) => *value < UNIT,
        None => false,
    };
    is_small && has_reply(question, replies, state)
}

/// Returns whether the minimiser has a reply in range if it is to move.
fn has_reply(question: &Question, replies: &[u32], state: u32) -> bool
    requires { state < states question.now }
{
    match question.side(state) {
        Side::Max => true,
        Side::Min => match replies.get(state as usize) {
            Some(reply) => *reply < question.game().choices_of(state),
            None => false,
        },
    }
}
