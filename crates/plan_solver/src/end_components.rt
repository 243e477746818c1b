//! This module finds the end components that are left to the maximiser when the minimiser plays its replies.

ghost use Rattle.std.specs.Prelude.{◌≡◌, ◌<◌, IfOk, length, vec_len};
ghost use Rattle.game_model.specs.Game.{choices_of};
ghost use Rattle.game_model.specs.Query.{states};
ghost use Rattle.components.specs.Division.{states_of};

use crate::input::{Input, is_open};
use crate::lower::note;
use crate::state_order::NONE;
use components::Components;
use game_model::{Marks, Question, Side};
use game_outside::OutOfMemory;
use predecessors::ChoiceFlags;
use std::alloc::Global;
use trap_sets::{TrapSets, traps_over};

/// The states of each end component are linked in a row.
#[derive(Drop)]
pub struct EndComponents {
    /// This is the first state of each state's end component. The list is empty if no state shares an end component.
    leads: Vec<u32>,
    /// This is the next state of each state's end component, or `NONE`.
    nexts: Vec<u32>,
}

impl EndComponents {
    /// Says that no state shares an end component.
    fn alone(alloc: Global) -> EndComponents {
        EndComponents {
            leads: Vec::new(alloc),
            nexts: Vec::new(alloc),
        }
    }

    /// Links the states of each trap in this order, and behind them those that the order lacks by their numbers.
    fn of_traps(
        alloc: Global,
        traps: &TrapSets,
        order: &[u32],
    ) -> Result<EndComponents, OutOfMemory> {
        let states = traps.of.len();
        let mut end_components = EndComponents {
            leads: vec![in alloc; NONE; states]?,
            nexts: vec![in alloc; NONE; states]?,
        };
        let mut last = vec![in alloc; NONE; traps.count as usize + 1]?;
        for state in order {
            end_components.place(traps, *state, &mut last);
        }
        for place in 0..states {
            end_components.place(traps, u32::try_from(place).unwrap_or(NONE), &mut last);
        }
        Ok(end_components)
    }

    /// Gives a state its place behind the last one of its trap.
    fn place(&mut self, traps: &TrapSets, state: u32, last: &mut [u32]) {
        if self.leads.get(state as usize).copied() != Some(NONE) {
            return;
        }
        let trap = traps.of.get(state as usize).copied().unwrap_or(0);
        let mut lead = state;
        if trap != 0 {
            if let Some(before) = last.get_mut(trap as usize) {
                if *before != NONE {
                    lead = self.lead_of(*before);
                    note(&mut self.nexts, *before, state);
                }
                *before = state;
            }
        }
        note(&mut self.leads, state, lead);
    }

    /// Returns whether it is known that no state shares an end component.
    pub(crate) fn are_alone(&self) -> bool {
        self.leads.is_empty()
    }

    /// Returns the first state of a state's end component.
    pub(crate) fn lead_of(&self, state: u32) -> u32 {
        self.leads.get(state as usize).copied().unwrap_or(state)
    }

    /// Returns the next state of a state's end component, or `NONE`.
    pub(crate) fn next_of(&self, state: u32) -> u32 {
        self.nexts.get(state as usize).copied().unwrap_or(NONE)
    }

    /// Returns whether a choice stays in the end component of its state.
    pub(crate) fn hold(&self, question: &Question, state: u32, choice: u32) -> bool
        requires state { state < states question.now }
        requires choice { choice < length (choices_of question.now.game state) }
    {
        question.invariant();
        let game = question.game();
        let own = self.lead_of(state);
        (0..game.edge_count(state, choice)).all(|place| self.lead_of(
            game.edge(state, choice, place).to,
        ) == own)
    }
}

/// Finds the end components of the open states when the minimiser plays its replies: the traps of the question in which
/// all others are dead. Mostly no choice can stay for ever, and nothing is searched. If choices have costs, it is not
/// free to stay, and nothing is searched either. The only error is that memory ran out.
pub(crate) fn find_end_components(
    alloc: Global,
    input: &Input<'_, '_>,
    replies: &[u32],
) -> Result<EndComponents, OutOfMemory>
    requires { length replies.now ≡ states input.now.question.now }
{
    if !input.costs.is_empty() || !has_free_choice(input) {
        return Ok(EndComponents::alone(alloc));
    }
    let posed = open_question(alloc, input)?;
    let played = played(alloc, replies)?;
    let traps = traps_over(alloc, &posed, input.predecessors, &played)?;
    if traps.count == 0 {
        return Ok(EndComponents::alone(alloc));
    }
    EndComponents::of_traps(alloc, &traps, &input.state_order.order)
}

/// Makes the question without goals in which each state of value 1 or 0 is dead.
fn open_question<'q>(alloc: Global, input: &Input<'_, 'q>) -> Result<Question<'q>, OutOfMemory>
    ensures { IfOk result (λ posed. posed.game ≡ input.now.question.now.game) }
{
    input.question.invariant();
    let states = input.question.game().states();
    let goals = vec![in alloc; false; states as usize]?;
    let mut sides = Vec::with_capacity(alloc, states as usize)?;
    let mut closed = Vec::with_capacity(alloc, states as usize)?;
    for state in 0..states {
        sides.push(input.question.side(state))?;
        closed.push(!is_open(input.sure, input.zero, state))?;
    }
    Ok(Question::build(input.question.game(), sides, goals, closed))
}

/// Returns the replies as those of a plan.
fn played(alloc: Global, replies: &[u32]) -> Result<Vec<Option<u32>>, OutOfMemory>
    ensures { IfOk result (λ list. vec_len list ≡ length replies.now) }
{
    let list = replies.iter().map(|reply| Some(*reply)).collect(alloc)?;
    Ok(list)
}

/// Returns whether the maximiser has more than one choice at a state whose value is neither 1 nor 0. Otherwise nobody
/// can stay in a component for ever, because all its values would be 0.
fn has_free_choice(input: &Input<'_, '_>) -> bool {
    for state in 0..input.question.game().states() {
        if is_open(input.sure, input.zero, state)
            && input.question.side(state) == Side::Max
            && input.question.game().choices_of(state) > 1
        {
            return true;
        }
    }
    false
}

/// Finds the components of the states whose value is neither 1 nor 0. Each other state is one of its own.
pub(crate) fn open_components(
    alloc: Global,
    question: &Question,
    sure: &Marks,
    zero: &Marks,
    order: &[u32],
) -> Result<Components, OutOfMemory>
    requires sure { length sure.now ≡ states question.now }
    requires zero { length zero.now ≡ states question.now }
    ensures { IfOk result (λ c. states_of c ≡ states question.now) }
{
    let open = ChoiceFlags::of_game(alloc, question.game(), |state, _choice| {
        is_open(sure, zero, state)
    })?;
    Components::of_question(alloc, question, &open, order)
}
