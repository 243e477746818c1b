//! This module finds the choices that carry a state into the states whose ranks were found.

ghost use Rattle.std.specs.Prelude.{◌<◌, ◌↔◌, length, IsTrue};
ghost use Rattle.rank_certificate.specs.inside.RankLayers.{HasRankWithin};

use crate::asked::Asked;
use fixed_bellman::gives;
use game_model::{Row, Side};

impl Asked<'_> {
    ghost use Rattle.std.specs.Prelude.{◌≡◌, ℕ, ◌≤◌, slice_index_or, None, MatchOption};
    ghost use Rattle.game_model.specs.Game.{choices_of, choice_of};
    ghost use Rattle.game_model.specs.Query.{side_at};
    ghost use Rattle.rank_certificate.specs.Ranking.{IsEnough};
    ghost use Rattle.rank_certificate.specs.Faults.{HasToRank};
    ghost use Rattle.rank_certificate.specs.Layers.{LeadsInto};
    ghost use Rattle.rank_certificate.specs.Carrying.{MayTake};
    ghost use Rattle.rank_certificate.specs.inside.OfAsked.{states_in, value_in, only_in, CarriesIn, IsFirstCarryingIn};

    /// Returns the first choice below a limit that carries a state ([`Asked::carries`]).
    pub fn first_carrying(
        &self,
        row: &Row<'_>,
        ranks: &[Option<u32>],
        level: u32,
        state: u32,
        limit: u32,
    ) -> Option<u32>
        requires state { state < states_in self.now }
        requires row { row.now ≡ choices_of self.now.question.now.game state }
        requires ranks { length ranks.now ≡ states_in self.now }
        requires limit { limit ≤ length row.now }
        ensures { MatchOption result
            ((c : ℕ) → c < limit → ¬ CarriesIn self.now (HasRankWithin ranks.now level) state c)
            (λ c. IsFirstCarryingIn self.now (HasRankWithin ranks.now level) state c) }
    {
        for choice in self.first_taken(state)..limit {
            if self.carries(row, ranks, level, state, choice) {
                return Some(choice);
            }
        }
        None
    }

    /// Returns a number such that no choice below it may be taken: the given choice of the maximiser, or else 0.
    fn first_taken(&self, state: u32) -> u32
        requires { state < states_in self.now }
        ensures { (value : ℕ → ℕ) (c : ℕ) → c < result
            → ¬ MayTake self.now.question.now value (only_in self.now) state c }
    {
        let Some(choices) = self.only else {
            return 0;
        };
        match self.question.side(state) {
            Side::Max => choices[state as usize].unwrap_or(0),
            Side::Min => 0,
        }
    }

    /// Returns whether every choice of a state carries it ([`Asked::carries`]).
    pub fn all_carry(&self, row: &Row<'_>, ranks: &[Option<u32>], level: u32, state: u32) -> bool
        requires state { state < states_in self.now }
        requires row { row.now ≡ choices_of self.now.question.now.game state }
        requires ranks { length ranks.now ≡ states_in self.now }
        ensures { IsTrue result ↔ ((c : ℕ) → c < length (choices_of self.now.question.now.game state)
            → CarriesIn self.now (HasRankWithin ranks.now level) state c) }
    {
        for choice in 0..row.choices() {
            if !self.carries(row, ranks, level, state, choice) {
                return false;
            }
        }
        true
    }

    /// Returns whether a choice of a state may be taken, and leads to a greater value, or to an equal one whose rank
    /// was found. If choices of the maximiser are given, these may be taken and each choice of the minimiser. If none
    /// are given, each choice that gives its state at least the value may be taken.
    pub fn carries(
        &self,
        row: &Row<'_>,
        ranks: &[Option<u32>],
        level: u32,
        state: u32,
        choice: u32,
    ) -> bool
        requires state { state < states_in self.now }
        requires row { row.now ≡ choices_of self.now.question.now.game state }
        requires ranks { length ranks.now ≡ states_in self.now }
        requires choice { choice < length row.now }
        ensures { IsTrue result ↔ CarriesIn self.now (HasRankWithin ranks.now level) state choice }
    {
        match self.only {
            Some(choices) => {
                self.is_asked(choices, state, choice)
                    && self.leads_low(row, ranks, level, state, choice)
            }
            None => {
                self.leads_low(row, ranks, level, state, choice) && self.pays(row, state, choice)
            }
        }
    }

    /// Returns whether a choice has to be ranked: the given one of the maximiser, and each of the minimiser.
    fn is_asked(&self, choices: &[Option<u32>], state: u32, choice: u32) -> bool
        requires state { state < states_in self.now }
        requires choices { length choices.now ≡ states_in self.now }
        ensures { IsTrue result ↔ HasToRank (side_at self.now.question.now state)
            (slice_index_or choices.now state None) choice }
    {
        match self.question.side(state) {
            Side::Max => choices[state as usize] == Some(choice),
            Side::Min => true,
        }
    }

    /// Returns whether a choice gives its state at least the value.
    fn pays(&self, row: &Row<'_>, state: u32, choice: u32) -> bool
        requires state { state < states_in self.now }
        requires row { row.now ≡ choices_of self.now.question.now.game state }
        requires choice { choice < length row.now }
        ensures { IsTrue result ↔ IsEnough (value_in self.now) state
            (choice_of self.now.question.now.game state choice) }
    {
        gives(row, choice, self.values, self.values[state as usize])
    }

    /// Returns whether a choice has a successor of greater value, or one of equal value whose rank was found.
    fn leads_low(
        &self,
        row: &Row<'_>,
        ranks: &[Option<u32>],
        level: u32,
        state: u32,
        choice: u32,
    ) -> bool
        requires state { state < states_in self.now }
        requires row { row.now ≡ choices_of self.now.question.now.game state }
        requires ranks { length ranks.now ≡ states_in self.now }
        requires choice { choice < length row.now }
        ensures { IsTrue result ↔ LeadsInto (value_in self.now) (HasRankWithin ranks.now level) state
            (choice_of self.now.question.now.game state choice) }
    {
        let value = self.values[state as usize];
        for to in row.successors(choice) {
            let there = self.values[*to as usize];
            if value < there || (there == value && is_low(ranks, level, *to)) {
                return true;
            }
        }
        false
    }
}

/// Returns whether a rank was found for a state, and is this one or less.
fn is_low(ranks: &[Option<u32>], level: u32, state: u32) -> bool
    requires { state < length ranks.now }
    ensures { IsTrue result ↔ HasRankWithin ranks.now level state }
{
    match ranks[state as usize] {
        Some(rank) => rank <= level,
        None => false,
    }
}
