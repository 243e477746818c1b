//! This module grows a set of states backward from the goals.

ghost use Rattle.std.specs.Prelude.{◌≡◌, ◌≢◌, ℕ, ◌+◌, ◌<◌, List, [], ◌∷◌, ◌++◌, false, length, slice_index, slice_index_or, IfOk, OnOk};
ghost use Rattle.game_model.specs.Growing.{IsLonger};
ghost use Rattle.game_model.specs.Query.{states};
ghost use Rattle.attractors.specs.Attractor.{ExcludedSets};
ghost use Rattle.attractors.specs.Search.{LeadsIn, IsAttractorSearch, IsLarger, IsTested};

use crate::excluded::Excluded;
use crate::membership::{first_unserved, some_serves};
use game_model::{Question, Side};
use game_outside::OutOfMemory;
use predecessors::Move;
use std::alloc::Global;

/// An attractor search is a set of states that grows. `members` marks the members. `next_choice` has, for each state of
/// the minimiser that is neither a member nor excluded, the first choice that is not known to serve. `order` lists the
/// members in the order in which they joined.
#[derive(Drop)]
pub struct AttractorSearch {
    pub members: Vec<bool>,
    pub next_choice: Vec<u32>,
    pub order: Vec<u32>,
}

impl AttractorSearch {
    /// Begins with the goals as the only members.
    pub fn of_goals(alloc: Global, question: &Question) -> Result<AttractorSearch, OutOfMemory>
        ensures { IfOk result (λ g. (excluded : ExcludedSets) → IsAttractorSearch question.now excluded
            [] g.members.items g.next_choice.items g.order.items) }
    {
        question.invariant();
        let states = question.game().states();
        let next_choice = vec![in alloc; 0u32; states as usize]?;
        let mut members = Vec::with_capacity(alloc, states as usize)?;
        let mut order = Vec::with_capacity(alloc, states as usize)?;
        for state in 0..states {
            let goal = question.is_goal(state);
            members.push(goal)?;
            if goal {
                order.push(state)?;
            }
        }
        Ok(AttractorSearch {
            members,
            next_choice,
            order,
        })
    }

    /// Follows a move that leads to a member, if neither its state nor its choice is excluded. A state of the maximiser
    /// joins by it. A state of the minimiser joins if it waited for this choice and each later one serves.
    pub fn follow<S: Excluded>(
        &mut self,
        question: &Question,
        excluded: &S,
        step: Move,
    ) -> Result<(), OutOfMemory>
        requires fits { S.fits excluded.now question.now }
        requires members { length self.old.members.items ≡ states question.now }
        requires next_choice { length self.old.next_choice.items ≡ states question.now }
        requires leads { LeadsIn question.now.game self.old.members.items step }
        ensures longer { OnOk result (IsLonger self.old.order.items self.new.order.items) }
        ensures grows { OnOk result ((followed : List Move) → IsAttractorSearch question.now
            (S.excluded excluded.now question.now) followed self.old.members.items self.old.next_choice.items
            self.old.order.items
            → IsAttractorSearch question.now (S.excluded excluded.now question.now)
            (followed ++ step ∷ []) self.new.members.items self.new.next_choice.items self.new.order.items) }
    {
        question.invariant();
        let state = step.state as usize;
        if self.members[state]
            || excluded.excludes_state(question, step.state)
            || excluded.excludes_choice(question, step.state, step.choice)
        {
            return Ok(());
        }
        match question.side(step.state) {
            Side::Max => {}
            Side::Min => {
                if self.next_choice[state] != step.choice {
                    return Ok(());
                }
                let next = first_unserved(
                    question,
                    excluded,
                    &self.members,
                    step.state,
                    step.choice + 1,
                );
                if next < question.game().choices_of(step.state) {
                    self.next_choice[state] = next;
                    return Ok(());
                }
            }
        }
        self.members[state] = true;
        self.order.push(step.state)?;
        Ok(())
    }

    /// Tests a state that is no member: it joins if the members attract it.
    pub fn test<S: Excluded>(
        &mut self,
        question: &Question,
        excluded: &S,
        state: u32,
    ) -> Result<(), OutOfMemory>
        requires fits { S.fits excluded.now question.now }
        requires state { state < states question.now }
        requires grown { IsAttractorSearch question.now (S.excluded excluded.now question.now)
            [] self.old.members.items self.old.next_choice.items self.old.order.items }
        ensures longer { OnOk result (IsLonger self.old.order.items self.new.order.items) }
        ensures grows { OnOk result (IsAttractorSearch question.now (S.excluded excluded.now question.now)
            [] self.new.members.items self.new.next_choice.items self.new.order.items) }
        ensures larger { OnOk result (IsLarger self.old.members.items self.new.members.items) }
        ensures others { OnOk result ((s : ℕ) → s ≢ state → slice_index self.new.next_choice.items s
            ≡ slice_index self.old.next_choice.items s) }
        ensures tested { OnOk result (slice_index_or self.new.members.items state false ≡ false
            → (S.excluded excluded.now question.now).states state ≡ false
            → IsTested question.now
            (S.excluded excluded.now question.now) self.old.members.items self.new.next_choice.items
            state) }
    {
        question.invariant();
        let place = state as usize;
        if self.members[place] || excluded.excludes_state(question, state) {
            return Ok(());
        }
        match question.side(state) {
            Side::Max => {
                if !some_serves(question, excluded, &self.members, state) {
                    return Ok(());
                }
            }
            Side::Min => {
                let next = first_unserved(
                    question,
                    excluded,
                    &self.members,
                    state,
                    self.next_choice[place],
                );
                if next < question.game().choices_of(state) {
                    self.next_choice[place] = next;
                    return Ok(());
                }
            }
        }
        self.members[place] = true;
        self.order.push(state)?;
        Ok(())
    }
}
