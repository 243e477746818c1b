//! Ranks and choices are found by layers, backward from the states that need none.

ghost use Rattle.std.specs.Prelude.{◌≡◌, ℕ, ◌+◌, ◌^◌, ◌<◌, ◌≤◌, List, [], ◌∷◌, ◌++◌, length, slice_index_or, slice_set, Some, None, IfOk, OnOk};
ghost use Rattle.game_model.specs.declared.game.Side.TheVariants.{Max};
ghost use Rattle.game_model.specs.Game.{choices_of};
ghost use Rattle.game_model.specs.Query.{side_at};
ghost use Rattle.predecessors.specs.declared.lists.Move.{Move};

use crate::asked::Asked;
use game_model::Side;
use game_outside::OutOfMemory;
use predecessors::Move;
use std::alloc::Global;

/// These are the ranks found, the choices of the maximiser for them, and the states with a rank in the order in which
/// they were found.
#[derive(Drop)]
pub struct RankLayers {
    pub ranks: Vec<Option<u32>>,
    pub choices: Vec<Option<u32>>,
    pub order: Vec<u32>,
}

/// If a layer has fewer than one in this many of the states, the moves to its states are followed.
const STATES_FOR_A_PASS: usize = 16;

impl RankLayers {
    ghost use Rattle.rank_certificate.specs.inside.RankLayers.{IsOpened};
    ghost use Rattle.rank_certificate.specs.inside.OfAsked.{states_in, value_in, AreRankLayersIn, IsApartIn, LooksIn, FollowsIn, AreFollowedIn};

    /// Puts the states that need no rank in layer 0.
    pub fn of_unneeded(alloc: Global, asked: &Asked<'_>) -> Result<RankLayers, OutOfMemory>
        ensures opened { IfOk result (λ g. IsOpened asked.now.question.now (value_in asked.now) (states_in asked.now)
            g.ranks.items g.order.items) }
        ensures choices { IfOk result (λ g. length g.choices.items ≡ states_in asked.now) }
        ensures none { IfOk result (λ g. (s : ℕ) → slice_index_or g.choices.items s None ≡ None) }
    {
        let states = asked.question.game().states();
        let none: Option<u32> = None;
        let choices = vec![in alloc; none; states as usize]?;
        let mut ranks = Vec::with_capacity(alloc, states as usize)?;
        let mut order = Vec::with_capacity(alloc, states as usize)?;
        for state in 0..states {
            if asked.needs_rank(state) {
                ranks.push(None)?;
            } else {
                ranks.push(Some(0))?;
                order.push(state)?;
            }
        }
        Ok(RankLayers {
            ranks,
            choices,
            order,
        })
    }

    /// Finds the next layer. The states of the last layer have the places from `begin` to `end` in the order. If they
    /// are many, each state is looked at; else the moves to them are followed.
    pub fn advance(
        &mut self,
        asked: &Asked<'_>,
        level: u32,
        begin: usize,
        end: usize,
    ) -> Result<(), OutOfMemory>
        requires level { level + 1 < 2 ^ 32 }
        requires positive { 1 ≤ level }
        requires begin { begin ≤ end }
        requires end { end ≡ length self.old.order.items }
        requires layers { AreRankLayersIn asked.now level begin self.old.order.items self.old }
        ensures layers { OnOk result (AreRankLayersIn asked.now level begin self.old.order.items self.new) }
        ensures apart { OnOk result ((s : ℕ) → s < states_in asked.now → IsApartIn asked.now level self.new s) }
    {
        let states = asked.question.game().states() as usize;
        let layer = end - begin;
        if layer >= states / STATES_FOR_A_PASS && layer >= states.saturating_sub(end) / 2 {
            self.look_at_all(asked, level)?;
            return Ok(());
        }
        self.spread(asked, level, begin, end)?;
        Ok(())
    }

    /// Looks at each state: if it has no rank and is carried into the layer, it joins the next layer.
    pub fn look_at_all(&mut self, asked: &Asked<'_>, level: u32) -> Result<(), OutOfMemory>
        requires level { level + 1 < 2 ^ 32 }
        requires ranks { length self.old.ranks.items ≡ states_in asked.now }
        requires choices { length self.old.choices.items ≡ states_in asked.now }
        ensures layers { OnOk result ((begin : ℕ) (old : List ℕ) → AreRankLayersIn asked.now level begin old self.old
            → AreRankLayersIn asked.now level begin old self.new) }
        ensures apart { OnOk result ((begin : ℕ) (old : List ℕ) → AreRankLayersIn asked.now level begin old self.old
            → (s : ℕ) → s < states_in asked.now → IsApartIn asked.now level self.new s) }
    {
        for state in 0..asked.question.game().states() {
            self.look(asked, level, state)?;
        }
        Ok(())
    }

    /// Follows all moves to the states of a layer, which have the places from `begin` to `end` in the order.
    fn spread(
        &mut self,
        asked: &Asked<'_>,
        level: u32,
        begin: usize,
        end: usize,
    ) -> Result<(), OutOfMemory>
        requires level { level + 1 < 2 ^ 32 }
        requires begin { begin ≤ end }
        requires end { end ≡ length self.old.order.items }
        requires layers { AreRankLayersIn asked.now level begin self.old.order.items self.old }
        ensures layers { OnOk result (AreRankLayersIn asked.now level begin self.old.order.items self.new) }
        ensures followed { OnOk result (AreFollowedIn asked.now level self.old.order.items begin
            (length self.old.order.items) self.new) }
    {
        for place in begin..end {
            let hand = self.order[place];
            self.go_back(asked, level, hand)?;
        }
        Ok(())
    }

    /// Follows the moves that lead to a state.
    fn go_back(&mut self, asked: &Asked<'_>, level: u32, hand: u32) -> Result<(), OutOfMemory>
        requires level { level + 1 < 2 ^ 32 }
        requires ranks { length self.old.ranks.items ≡ states_in asked.now }
        requires choices { length self.old.choices.items ≡ states_in asked.now }
        requires hand { hand < states_in asked.now }
        ensures { OnOk result (FollowsIn asked.now level hand (slice_index_or asked.now.predecessors.now hand [])
            self.old self.new) }
    {
        for step in asked.predecessors.of_state(hand) {
            self.follow(asked, level, hand, *step)?;
        }
        Ok(())
    }

    /// Follows a move: looks at its state if that has the value of the state at hand and no rank. At a state of the
    /// maximiser only the choice of the move can now carry it.
    fn follow(
        &mut self,
        asked: &Asked<'_>,
        level: u32,
        hand: u32,
        step: Move,
    ) -> Result<(), OutOfMemory>
        requires level { level + 1 < 2 ^ 32 }
        requires ranks { length self.old.ranks.items ≡ states_in asked.now }
        requires choices { length self.old.choices.items ≡ states_in asked.now }
        requires hand { hand < states_in asked.now }
        requires state { step.state < states_in asked.now }
        requires choice { step.choice < length (choices_of asked.now.question.now.game step.state) }
        ensures { OnOk result (FollowsIn asked.now level hand (step ∷ []) self.old self.new) }
    {
        if asked.values[hand as usize] != asked.values[step.state as usize] {
            return Ok(());
        }
        if self.ranks[step.state as usize].is_some() {
            return Ok(());
        }
        match asked.question.side(step.state) {
            Side::Max => self.take(asked, level, hand, step),
            Side::Min => {
                self.look(asked, level, step.state)?;
                Ok(())
            }
        }
    }

    /// Follows a move of the maximiser from a state without a rank: if its choice carries the state, the state joins
    /// the next layer, with the first choice that carries it.
    fn take(
        &mut self,
        asked: &Asked<'_>,
        level: u32,
        hand: u32,
        step: Move,
    ) -> Result<(), OutOfMemory>
        requires level { level + 1 < 2 ^ 32 }
        requires ranks { length self.old.ranks.items ≡ states_in asked.now }
        requires choices { length self.old.choices.items ≡ states_in asked.now }
        requires state { step.state < states_in asked.now }
        requires choice { step.choice < length (choices_of asked.now.question.now.game step.state) }
        requires side { side_at asked.now.question.now step.state ≡ Max }
        requires none { slice_index_or self.old.ranks.items step.state None ≡ None }
        ensures { OnOk result (FollowsIn asked.now level hand (step ∷ []) self.old self.new) }
    {
        let row = asked.question.row(step.state);
        if !asked.carries(&row, &self.ranks, level, step.state, step.choice) {
            return Ok(());
        }
        let earlier = asked.first_carrying(&row, &self.ranks, level, step.state, step.choice);
        self.join(level, step.state, Some(earlier.unwrap_or(step.choice)))?;
        Ok(())
    }

    /// Looks at a state: if it has no rank and is carried into the layer, it joins the next layer.
    fn look(&mut self, asked: &Asked<'_>, level: u32, state: u32) -> Result<(), OutOfMemory>
        requires level { level + 1 < 2 ^ 32 }
        requires ranks { length self.old.ranks.items ≡ states_in asked.now }
        requires choices { length self.old.choices.items ≡ states_in asked.now }
        requires state { state < states_in asked.now }
        ensures { OnOk result (LooksIn asked.now level state self.old self.new) }
    {
        if self.ranks[state as usize].is_some() {
            return Ok(());
        }
        let row = asked.question.row(state);
        match asked.question.side(state) {
            Side::Max => {
                let choice = asked.first_carrying(&row, &self.ranks, level, state, row.choices());
                if choice.is_some() {
                    self.join(level, state, choice)?;
                }
            }
            Side::Min => {
                if asked.all_carry(&row, &self.ranks, level, state) {
                    self.join(level, state, None)?;
                }
            }
        }
        Ok(())
    }

    /// Adds a state to the next layer, with this choice.
    fn join(&mut self, level: u32, state: u32, choice: Option<u32>) -> Result<(), OutOfMemory>
        requires level { level + 1 < 2 ^ 32 }
        requires ranks { state < length self.old.ranks.items }
        requires choices { state < length self.old.choices.items }
        ensures ranks { OnOk result (self.new.ranks.items ≡ slice_set self.old.ranks.items state (Some (level + 1))) }
        ensures choices { OnOk result (self.new.choices.items ≡ slice_set self.old.choices.items state choice) }
        ensures order { OnOk result (self.new.order.items ≡ self.old.order.items ++ state ∷ []) }
    {
        self.ranks[state as usize] = Some(level + 1);
        self.choices[state as usize] = choice;
        self.order.push(state)?;
        Ok(())
    }
}
