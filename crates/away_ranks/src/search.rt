//! This module takes states away, and keeps the order in which they go.

ghost use Rattle.std.specs.Prelude.{◌≡◌, ℕ, ◌+◌, ◌<◌, ◌≤◌, true, false, length, slice_index_or, IfOk, OnOk};
ghost use Rattle.game_model.specs.Query.{states, is_dead};
ghost use Rattle.predecessors.specs.Lists.{ArePredecessors};
ghost use Rattle.attractors.specs.Attractor.{IsAttractor};
ghost use Rattle.attractors.specs.Search.{LeadsIn};
ghost use Rattle.almost_sure.specs.Values.{IsAlmostSure};
ghost use Rattle.almost_sure.specs.ExcludedSets.{gone_excluded};
ghost use Rattle.expected_rewards.specs.Turned.{turned};
ghost use Rattle.away_ranks.specs.inside.Left.{AreUnserved};

use crate::left::left_states;
use attractors::{ExcludedDead, first_unserved};
use game_model::{Question, Side};
use game_outside::OutOfMemory;
use predecessors::{Move, Predecessors};
use std::alloc::Global;

/// A search takes states away one after another. `gone` marks those that have gone, and each of them has a rank that is
/// at most `top`. The maximiser plays `choices` there. Each state of the minimiser waits for a choice: each choice
/// before it has a successor that has gone. The predecessors of the states in `todo` are still to be followed.
#[derive(Drop)]
pub struct AwaySearch {
    pub gone: Vec<bool>,
    pub choices: Vec<Option<u32>>,
    pub ranks: Vec<u32>,
    pub top: u32,
    pub waits: Vec<u32>,
    pub todo: Vec<u32>,
}

impl AwaySearch {
    ghost use Rattle.away_ranks.specs.inside.Search.{IsAwaySearch, HasJoined, HasLetGo, IsBalanced};

    /// Begins when no state has gone.
    pub fn of_states(alloc: Global, question: &Question) -> Result<AwaySearch, OutOfMemory>
        ensures { IfOk result (λ search. IsAwaySearch question.now search) }
    {
        question.invariant();
        let states = question.game().states() as usize;
        let gone = vec![in alloc; false; states]?;
        let choices = vec![in alloc; None; states]?;
        let ranks = vec![in alloc; 0u32; states]?;
        let waits = vec![in alloc; 0u32; states]?;
        Ok(AwaySearch {
            gone,
            choices,
            ranks,
            top: 0,
            waits,
            todo: Vec::new(alloc),
        })
    }

    /// Lets the states go that sink into those that have gone.
    pub fn sink(
        &mut self,
        question: &Question,
        predecessors: &Predecessors,
    ) -> Result<(), OutOfMemory>
        requires lists { ArePredecessors question.now.game predecessors.now }
        requires search { IsAwaySearch question.now self.old }
        ensures search { OnOk result (IsAwaySearch question.now self.new) }
        ensures more { OnOk result (self.old.top ≤ self.new.top) }
    {
        while let Some(member) = self.todo.pop() {
            self.go_back(question, predecessors, member)?;
        }
        Ok(())
    }

    /// Follows the moves that lead to a state that has gone.
    fn go_back(
        &mut self,
        question: &Question,
        predecessors: &Predecessors,
        member: u32,
    ) -> Result<(), OutOfMemory>
        requires lists { ArePredecessors question.now.game predecessors.now }
        requires member { slice_index_or self.old.gone.items member false ≡ true }
        requires search { IsAwaySearch question.now self.old }
        ensures search { OnOk result (IsAwaySearch question.now self.new) }
        ensures more { OnOk result (self.old.top ≤ self.new.top) }
        ensures balance { OnOk result (IsBalanced self.old self.new) }
    {
        for step in predecessors.of_state(member) {
            self.follow(question, *step)?;
        }
        Ok(())
    }

    /// Follows a move that leads to a state that has gone. A state of the maximiser sinks by it. A state of the
    /// minimiser sinks if it waited for this choice and each later one has a successor that has gone.
    fn follow(&mut self, question: &Question, step: Move) -> Result<(), OutOfMemory>
        requires leads { LeadsIn question.now.game self.old.gone.items step }
        requires search { IsAwaySearch question.now self.old }
        ensures search { OnOk result (IsAwaySearch question.now self.new) }
        ensures larger { OnOk result ((s : ℕ) → slice_index_or self.old.gone.items s false ≡ true
            → slice_index_or self.new.gone.items s false ≡ true) }
        ensures more { OnOk result (self.old.top ≤ self.new.top) }
        ensures balance { OnOk result (IsBalanced self.old self.new) }
    {
        question.invariant();
        let state = step.state as usize;
        if self.gone[state] || question.is_goal(step.state) {
            return Ok(());
        }
        match question.side(step.state) {
            Side::Max => self.choices[state] = Some(step.choice),
            Side::Min => {
                if self.waits[state] != step.choice {
                    return Ok(());
                }
                let next = first_unserved(
                    question,
                    &ExcludedDead {},
                    &self.gone,
                    step.state,
                    step.choice,
                );
                if next < question.game().choices_of(step.state) {
                    self.waits[state] = next;
                    return Ok(());
                }
            }
        }
        self.top += 1;
        self.join(step.state, self.top)
    }

    /// Lets a state go with this rank.
    fn join(&mut self, state: u32, rank: u32) -> Result<(), OutOfMemory>
        requires state { state < length self.old.gone.items }
        requires many { length self.old.ranks.items ≡ length self.old.gone.items }
        ensures { OnOk result (HasJoined state rank self.old self.new) }
    {
        let place = state as usize;
        self.ranks[place] = rank;
        self.gone[place] = true;
        self.todo.push(state)?;
        Ok(())
    }

    /// Lets the states go that linger, and returns whether there are any.
    pub fn linger(
        &mut self,
        alloc: Global,
        question: &Question,
        other: &Question,
        predecessors: &Predecessors,
    ) -> Result<bool, OutOfMemory>
        requires lists { ArePredecessors question.now.game predecessors.now }
        requires alive { (s : ℕ) → s < states question.now → is_dead question.now s ≡ false }
        requires other { other.now ≡ turned question.now }
        requires search { IsAwaySearch question.now self.old }
        ensures search { OnOk result (IsAwaySearch question.now self.new) }
        ensures more { IfOk result (λ more. more ≡ true → self.old.top < self.new.top) }
        // If there are none, the others are almost sure.
        ensures sure { IfOk result (λ more. more ≡ false → (s : ℕ) → s < states question.now
            → slice_index_or self.new.gone.items s false ≡ false → IsAlmostSure (turned question.now) s) }
    {
        question.invariant();
        let left = left_states(
            alloc,
            question,
            other,
            predecessors,
            &self.gone,
            &mut self.choices,
        )?;
        self.let_go(question, &left)
    }

    /// Lets the states go that are not left, all with one rank, and returns whether there are any.
    fn let_go(&mut self, question: &Question, left: &[bool]) -> Result<bool, OutOfMemory>
        requires search { IsAwaySearch question.now self.old }
        requires left { IsAttractor (turned question.now) (gone_excluded self.old.gone.items) left.now }
        requires chosen { AreUnserved question.now self.old.gone.items left.now self.old.choices.items }
        ensures search { OnOk result (IsAwaySearch question.now self.new) }
        ensures more { IfOk result (λ more. more ≡ true → self.old.top < self.new.top) }
        ensures none { IfOk result (λ more. more ≡ false → self.new.gone.items ≡ self.old.gone.items) }
        ensures all { OnOk result ((s : ℕ) → s < states question.now → slice_index_or left.now s false ≡ false
            → slice_index_or self.new.gone.items s false ≡ true) }
    {
        question.invariant();
        let rank = self.top + 1;
        let mut more = false;
        for state in 0..question.game().states() {
            let place = state as usize;
            if !left[place] && !self.gone[place] {
                self.join(state, rank)?;
                more = true;
            }
        }
        if more {
            self.top = rank;
        }
        Ok(more)
    }
}
