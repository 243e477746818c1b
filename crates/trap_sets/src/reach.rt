//! This module searches from the roots of all parts at once.

ghost use Rattle.std.specs.Prelude.{◌≡◌, ℕ, ◌+◌, ◌<◌, true, false, length, slice_index, slice_index_or, IfOk, OnOk};
ghost use Rattle.attractors.specs.Search.{IsOrder};
ghost use Rattle.game_model.specs.Game.{choices_of};
ghost use Rattle.trap_sets.specs.inside.OfInternal.{states_of, LeadsOf, IsInternalOf, IsStepOf};
ghost use Rattle.trap_sets.specs.inside.Parts.{IsRooted};
ghost use Rattle.trap_sets.specs.inside.Reaching.{Passes, IsMore, IsReaching, AreReached};

use crate::internal::Internal;
use game_outside::OutOfMemory;
use predecessors::Move;
use std::alloc::Global;

/// A search goes on along internal choices, or back against them.
#[derive(Clone, Copy)]
pub enum Way {
    On,
    Back,
}

/// A search has the marked states, and lists them in the order in which they were met.
#[derive(Drop)]
struct Search {
    marks: Vec<bool>,
    order: Vec<u32>,
}

/// Marks the states to which a search comes that goes this way from the root of their part.
pub fn reached(alloc: Global, internal: &Internal<'_>, way: Way) -> Result<Vec<bool>, OutOfMemory>
    ensures { IfOk result (λ marks. AreReached internal.now way marks.items) }
{
    let mut search = Search::of_roots(alloc, internal)?;
    let mut place: usize = 0;
    while place < search.order.len() {
        let state = search.order[place];
        search.pass(internal, way, state)?;
        place += 1;
    }
    Ok(search.marks)
}

impl Search {
    /// Marks only the roots.
    fn of_roots(alloc: Global, internal: &Internal<'_>) -> Result<Search, OutOfMemory>
        ensures { IfOk result (λ r. (way : Way) → IsReaching internal.now way r.marks.items r.order.items 0) }
    {
        let states = internal.mdp.question.game().states();
        let mut marks = Vec::with_capacity(alloc, states as usize)?;
        let mut order = Vec::new(alloc);
        for state in 0..states {
            let is_root = internal.part[state as usize] == state + 1;
            marks.push(is_root)?;
            if is_root {
                order.push(state)?;
            }
        }
        Ok(Search { marks, order })
    }

    /// Marks a state.
    fn add(&mut self, state: u32) -> Result<(), OutOfMemory>
        requires ordered { IsOrder self.old.marks.items self.old.order.items }
        requires state { state < length self.old.marks.items }
        ensures more { OnOk result (IsMore (λ s. s ≡ state) self.old.marks.items self.old.order.items
            self.new.marks.items self.new.order.items) }
        ensures added { OnOk result (slice_index_or self.new.marks.items state false ≡ true) }
    {
        if self.marks[state as usize] {
            return Ok(());
        }
        self.marks[state as usize] = true;
        self.order.push(state)?;
        Ok(())
    }

    /// Marks the states to which a search passes from this one.
    fn pass(&mut self, internal: &Internal<'_>, way: Way, state: u32) -> Result<(), OutOfMemory>
        requires ordered { IsOrder self.old.marks.items self.old.order.items }
        requires many { length self.old.marks.items ≡ states_of internal.now }
        requires state { state < states_of internal.now }
        ensures more { OnOk result (IsMore (Passes internal.now way state) self.old.marks.items self.old.order.items
            self.new.marks.items self.new.order.items) }
        ensures passed { OnOk result ((t : ℕ) → Passes internal.now way state t
            → slice_index_or self.new.marks.items t false ≡ true) }
    {
        match way {
            Way::On => self.go_on(internal, state),
            Way::Back => self.go_back(internal, state),
        }
    }

    /// Marks the states to which an internal choice of this one leads.
    fn go_on(&mut self, internal: &Internal<'_>, state: u32) -> Result<(), OutOfMemory>
        requires ordered { IsOrder self.old.marks.items self.old.order.items }
        requires many { length self.old.marks.items ≡ states_of internal.now }
        requires state { state < states_of internal.now }
        ensures more { OnOk result (IsMore (IsStepOf internal.now state) self.old.marks.items self.old.order.items
            self.new.marks.items self.new.order.items) }
        ensures passed { OnOk result ((t : ℕ) → IsStepOf internal.now state t
            → slice_index_or self.new.marks.items t false ≡ true) }
    {
        for choice in 0..internal.mdp.question.game().choices_of(state) {
            self.follow(internal, Move { state, choice })?;
        }
        Ok(())
    }

    /// Marks the states to which a choice leads, if it is internal.
    fn follow(&mut self, internal: &Internal<'_>, step: Move) -> Result<(), OutOfMemory>
        requires ordered { IsOrder self.old.marks.items self.old.order.items }
        requires many { length self.old.marks.items ≡ states_of internal.now }
        requires state { step.state < states_of internal.now }
        requires choice { step.choice < length (choices_of internal.now.mdp.question.now.game step.state) }
        ensures more { OnOk result (IsMore (IsStepOf internal.now step.state) self.old.marks.items self.old.order.items
            self.new.marks.items self.new.order.items) }
        ensures passed { OnOk result (IsInternalOf internal.now step.state step.choice → (t : ℕ)
            → LeadsOf internal.now step.state step.choice t → slice_index_or self.new.marks.items t false ≡ true) }
    {
        if !internal.has(step.state, step.choice) {
            return Ok(());
        }
        for to in internal
            .mdp
            .question
            .game()
            .successors(step.state, step.choice)
        {
            self.add(*to)?;
        }
        Ok(())
    }

    /// Marks the states from which an internal choice leads to this one.
    fn go_back(&mut self, internal: &Internal<'_>, state: u32) -> Result<(), OutOfMemory>
        requires ordered { IsOrder self.old.marks.items self.old.order.items }
        requires many { length self.old.marks.items ≡ states_of internal.now }
        requires state { state < states_of internal.now }
        ensures more { OnOk result
            (IsMore (λ s. IsStepOf internal.now s state) self.old.marks.items self.old.order.items
            self.new.marks.items self.new.order.items) }
        ensures passed { OnOk result ((s : ℕ) → IsStepOf internal.now s state
            → slice_index_or self.new.marks.items s false ≡ true) }
    {
        for step in internal.mdp.predecessors.of_state(state) {
            self.meet(internal, *step)?;
        }
        Ok(())
    }

    /// Marks the state of a choice, if it is internal.
    fn meet(&mut self, internal: &Internal<'_>, step: Move) -> Result<(), OutOfMemory>
        requires ordered { IsOrder self.old.marks.items self.old.order.items }
        requires many { length self.old.marks.items ≡ states_of internal.now }
        requires state { step.state < states_of internal.now }
        requires choice { step.choice < length (choices_of internal.now.mdp.question.now.game step.state) }
        ensures more { OnOk result (IsMore (λ s. (s ≡ step.state) × IsInternalOf internal.now step.state step.choice)
            self.old.marks.items self.old.order.items self.new.marks.items self.new.order.items) }
        ensures met { OnOk result (IsInternalOf internal.now step.state step.choice
            → slice_index_or self.new.marks.items step.state false ≡ true) }
    {
        if self.marks[step.state as usize] || !internal.has(step.state, step.choice) {
            return Ok(());
        }
        self.add(step.state)
    }
}
