// Models are made from a rule of successors.
use super::Model;
use crate::draft::{Draft, merged};
use std::alloc::Global;

/// At most this many states are numbered.
const MOST_NUMBERED: usize = 1_000;

/// A state is given by what holds in it.
pub trait Situation: Copy + PartialEq {
    /// Lists the choices of the state. Each is a list of states that it leads to, with the probability of each in per
    /// cent.
    fn choices(self, alloc: Global) -> Option<Vec<Vec<(Self, u64)>>>;

    /// Returns whether the state is a goal.
    fn is_goal(self) -> bool;
}

/// Makes the model of the states that are reached from the first one, numbered breadth first.
pub(crate) fn model_from<S: Situation>(alloc: Global, first: S) -> Option<Model> {
    let states = reached(alloc, first)?;
    let mut draft = Draft::new(alloc, u32::try_from(states.len()).ok()?);
    let mut goal = Vec::new(alloc);
    for state in &states {
        add_state(alloc, &mut draft, &states, *state)?;
        goal.push(state.is_goal()).ok()?;
    }
    Some(Model {
        game: draft.game(alloc)?,
        goal,
    })
}

// Lists the states that are reached, breadth first, if there are not too many.
fn reached<S: Situation>(alloc: Global, first: S) -> Option<Vec<S>> {
    let mut states = Vec::new(alloc);
    states.push(first).ok()?;
    for place in 0..MOST_NUMBERED {
        if place >= states.len() {
            return Some(states);
        }
        let choices = states[place].choices(alloc)?;
        for choice in &choices {
            add_new(&mut states, choice)?;
        }
    }
    None
}

// Adds those successors that are not yet listed.
fn add_new<S: Situation>(states: &mut Vec<S>, choice: &[(S, u64)]) -> Option<()> {
    for (to, _) in choice {
        if place_of(states, *to).is_none() {
            states.push(*to).ok()?;
        }
    }
    Some(())
}

// Finds the place of a state in a list.
fn place_of<S: Situation>(states: &[S], wanted: S) -> Option<usize> {
    states.iter().position(|state| *state == wanted)
}

// Adds the next state of a draft.
fn add_state<S: Situation>(alloc: Global, draft: &mut Draft, states: &[S], state: S) -> Option<()> {
    for choice in &state.choices(alloc)? {
        draft.choice(alloc, &edges_of(alloc, states, choice)?)?;
    }
    draft.end_state(alloc)
}

// Makes the edges of a choice, with the numbers of states.
fn edges_of<S: Situation>(
    alloc: Global,
    states: &[S],
    choice: &[(S, u64)],
) -> Option<Vec<(u32, u64)>> {
    let mut parts = Vec::new(alloc);
    for (to, part) in choice {
        let number = place_of(states, *to)?;
        parts.push((u32::try_from(number).ok()?, *part)).ok()?;
    }
    merged(alloc, &parts)
}
