//! This module finds ranks by which plays under replies end.

ghost use Rattle.std.specs.Prelude.{◌≡◌, ◌<◌, ◌≤◌, length, vec_len, IfOk};
ghost use Rattle.game_model.specs.Game.{choices_of};
ghost use Rattle.game_model.specs.Query.{states};

use crate::moves::may_be_taken;
use game_model::{Question, Side};
use game_outside::OutOfMemory;
use predecessors::{Move, Predecessors};
use std::alloc::Global;

/// This number means that a state has no rank.
const NONE: u32 = u32::MAX;

/// States get their ranks backward from the goals, the least ranks first.
#[derive(Drop)]
struct EndSearch {
    /// A state has this rank, or `NONE`.
    ranks: Vec<u32>,
    /// A state of the maximiser waits for this choice: each choice before it leads down.
    next_choice: Vec<u32>,
    /// These are the states with a rank, in the order in which they got it.
    order: Vec<u32>,
    ghost as_many: { vec_len next_choice ≡ vec_len ranks },
}

/// Returns the least ranks of bounded states such that each move that may be taken leads down: it has a successor of
/// smaller rank. Goals have rank 0. A state has a very great rank if there is none for it, or if it is not bounded. The
/// only error is that memory ran out.
pub fn end_ranks(
    alloc: Global,
    question: &Question,
    predecessors: &Predecessors,
    bounded: &[bool],
    replies: &[u32],
) -> Result<Vec<u32>, OutOfMemory>
    requires lists { length predecessors.now ≡ states question.now }
    requires bounded { length bounded.now ≡ states question.now }
    ensures { IfOk result (λ list. vec_len list ≡ states question.now) }
{
    let states = question.game().states();
    let mut search = EndSearch::of_goals(alloc, question)?;
    for place in 0..states as usize {
        let Some(state) = search.order.get(place).copied() else {
            break;
        };
        search.follow_to(question, predecessors, bounded, replies, state)?;
    }
    Ok(search.ranks)
}

impl EndSearch {
    /// Begins with the goals.
    fn of_goals(alloc: Global, question: &Question) -> Result<EndSearch, OutOfMemory>
        ensures { IfOk result (λ search. vec_len search.ranks ≡ states question.now) }
    {
        let states = question.game().states();
        let mut ranks = vec![in alloc; NONE; states as usize]?;
        let next_choice = vec![in alloc; 0u32; states as usize]?;
        let mut order = Vec::new(alloc);
        for state in 0..states {
            if question.is_goal(state) {
                ranks[state as usize] = 0;
                order.push(state)?;
            }
        }
        Ok(EndSearch {
            ranks,
            next_choice,
            order,
        })
    }

    /// Follows the moves that lead to a state with a rank.
    fn follow_to(
        &mut self,
        question: &Question,
        predecessors: &Predecessors,
        bounded: &[bool],
        replies: &[u32],
        state: u32,
    ) -> Result<(), OutOfMemory>
        requires lists { length predecessors.now ≡ states question.now }
        requires bounded { length bounded.now ≡ states question.now }
        requires ranks { vec_len self.old.ranks ≡ states question.now }
        ensures { vec_len self.new.ranks ≡ vec_len self.old.ranks }
    {
        if state >= question.game().states() {
            return Ok(());
        }
        let rank = self.ranks[state as usize];
        for step in predecessors.of_state(state) {
            if may_be_taken(question, replies, *step) && bounded[step.state as usize] {
                self.follow(question, *step, rank)?;
            }
        }
        Ok(())
    }

    /// Follows a move that may be taken and leads to this rank. Its state gets the next rank if it has none and waits
    /// for no other choice.
    fn follow(&mut self, question: &Question, step: Move, rank: u32) -> Result<(), OutOfMemory>
        requires state { step.state < states question.now }
        requires ranks { vec_len self.old.ranks ≡ states question.now }
        ensures { vec_len self.new.ranks ≡ vec_len self.old.ranks }
    {
        let place = step.state as usize;
        if self.ranks[place] != NONE || self.waits_on(question, step, rank) {
            return Ok(());
        }
        self.ranks[place] = rank.saturating_add(1);
        self.order.push(step.state)?;
        Ok(())
    }

    /// Returns whether the state of a move waits for another choice than that of the move. If it waited for this one,
    /// it goes on to wait for the next one that leads to no such rank.
    fn waits_on(&mut self, question: &Question, step: Move, rank: u32) -> bool
        requires state { step.state < states question.now }
        requires ranks { vec_len self.old.ranks ≡ states question.now }
        ensures { vec_len self.new.ranks ≡ vec_len self.old.ranks }
    {
        let place = step.state as usize;
        match question.side(step.state) {
            Side::Min => false,
            Side::Max => {
                if self.next_choice[place] != step.choice {
                    return true;
                }
                let choices = question.game().choices_of(step.state);
                let from = step.choice.saturating_add(1).min(choices);
                let next = first_high(question, &self.ranks, step.state, from, rank);
                self.next_choice[place] = next;
                next < choices
            }
        }
    }
}

/// Returns the first choice of a state, from this one on, none of whose successors has at most this rank. If there is
/// none, it returns the number of choices.
fn first_high(question: &Question, ranks: &[u32], state: u32, from: u32, rank: u32) -> u32
    requires state { state < states question.now }
    requires from { from ≤ length (choices_of question.now.game state) }
    requires ranks { length ranks.now ≡ states question.now }
{
    let choices = question.game().choices_of(state);
    for choice in from..choices {
        if !leads_low(question, ranks, state, choice, rank) {
            return choice;
        }
    }
    choices
}

/// Returns whether some successor of a choice has at most this rank.
fn leads_low(question: &Question, ranks: &[u32], state: u32, choice: u32, rank: u32) -> bool
    requires state { state < states question.now }
    requires choice { choice < length (choices_of question.now.game state) }
    requires ranks { length ranks.now ≡ states question.now }
{
    question.invariant();
    for place in 0..question.game().edge_count(state, choice) {
        let to = question.game().edge(state, choice, place).to;
        if ranks[to as usize] <= rank {
            return true;
        }
    }
    false
}
