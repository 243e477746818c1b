//! This module lists the states of positive value by their distance to a goal, with a choice of each that leads there.

ghost use Rattle.std.specs.Prelude.{◌≡◌, ◌<◌, length, vec_len};
ghost use Rattle.game_model.specs.Query.{states};

use game_model::{Question, Side, UNIT};
use game_outside::OutOfMemory;
use predecessors::{Move, Predecessors};
use std::alloc::Global;
use table_rounding::cost_of;

/// This number means no choice.
pub const NONE: u32 = u32::MAX;

/// This number means that a state of the maximiser waits for any choice.
const ANY: u32 = u32::MAX;

/// The states of positive value join backward from the goals.
#[derive(Drop)]
pub struct StateOrder {
    /// These are the states, the nearest to a goal first.
    pub order: Vec<u32>,
    /// Each state joined by this choice, or has `NONE`.
    pub toward: Vec<u32>,
    /// This many more choices of a state must lead on before it joins, or `ANY`. It is 0 if the state joined or is
    /// dead.
    next_choice: Vec<u32>,
    /// A choice is marked if it is one of the minimiser that leads on.
    followed: Vec<bool>,
    ghost as_many: { vec_len next_choice ≡ vec_len toward },
}

impl StateOrder {
    /// Finds the states of positive value in the order in which they join. A state of the maximiser joins by its first
    /// choice that leads on, and one of the minimiser when all its choices do. A choice that costs more than the unit
    /// does not lead on. The only error is that memory ran out.
    pub(crate) fn of_question(
        alloc: Global,
        question: &Question,
        predecessors: &Predecessors,
        costs: Option<&[u64]>,
    ) -> Result<StateOrder, OutOfMemory>
        requires { length predecessors.now ≡ states question.now }
    {
        let states = question.game().states();
        let mut state_order = StateOrder::of_goals(alloc, question)?;
        for place in 0..states as usize {
            let Some(state) = state_order.order.get(place).copied() else {
                break;
            };
            if state < states {
                for step in predecessors.of_state(state) {
                    if is_affordable(question, costs, *step) {
                        state_order.follow(question, *step)?;
                    }
                }
            }
        }
        Ok(state_order)
    }

    /// Starts with only the goals.
    fn of_goals(alloc: Global, question: &Question) -> Result<StateOrder, OutOfMemory> {
        let states = question.game().states();
        let mut order = Vec::with_capacity(alloc, states as usize)?;
        let mut next_choice = vec![in alloc; 0u32; states as usize]?;
        for state in 0..states {
            if question.is_goal(state) {
                order.push(state)?;
            } else if !question.is_dead(state) {
                next_choice[state as usize] = match question.side(state) {
                    Side::Max => ANY,
                    Side::Min => question.game().choices_of(state),
                };
            }
        }
        let choices = question.game().choices_below(states);
        Ok(StateOrder {
            order,
            toward: vec![in alloc; NONE; states as usize]?,
            next_choice,
            followed: vec![in alloc; false; choices as usize]?,
        })
    }

    /// Follows a choice that leads to a state that joined. Its own state joins if it waits for no other choice.
    fn follow(&mut self, question: &Question, step: Move) -> Result<(), OutOfMemory> {
        let state = step.state as usize;
        if state >= self.next_choice.len() {
            return Ok(());
        }
        let left = self.next_choice[state];
        if left == ANY {
            return self.join(step);
        }
        if left > 0 && self.is_last(question, step, left) {
            return self.join(step);
        }
        Ok(())
    }

    /// Lets the state of a choice join by it.
    fn join(&mut self, step: Move) -> Result<(), OutOfMemory>
        requires { step.state < vec_len self.old.next_choice }
    {
        self.next_choice[step.state as usize] = 0;
        self.toward[step.state as usize] = step.choice;
        self.order.push(step.state)?;
        Ok(())
    }

    /// Notes that a choice of the minimiser leads on, when its state waits for this many. Returns whether it was the
    /// last one.
    fn is_last(&mut self, question: &Question, step: Move, left: u32) -> bool
        requires { step.state < vec_len self.old.next_choice }
        ensures { vec_len self.new.next_choice ≡ vec_len self.old.next_choice }
    {
        if step.state >= question.game().states() {
            return false;
        }
        let number = question.game().choices_below(step.state) as usize + step.choice as usize;
        if number >= self.followed.len() || self.followed[number] {
            return false;
        }
        self.followed[number] = true;
        self.next_choice[step.state as usize] = left.saturating_sub(1);
        left == 1
    }
}

/// Returns whether a choice costs at most the unit.
fn is_affordable(question: &Question, costs: Option<&[u64]>, step: Move) -> bool {
    step.state < question.game().states()
        && cost_of(costs, question.game(), step.state, step.choice) <= UNIT
}
