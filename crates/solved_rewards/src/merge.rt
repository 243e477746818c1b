//! This module merges sources to the lists of a certificate.

ghost use Rattle.std.specs.Prelude.{◌≡◌, ◌<◌, false, length, slice_index, IsSome, IfOk};
ghost use Rattle.game_model.specs.Query.{states};
ghost use Rattle.expected_rewards.specs.Tables.{is_finite};
ghost use Rattle.solved_rewards.specs.Values.{NeedsReply};
ghost use Rattle.solved_rewards.specs.inside.Merged.{IsChoiceAt, AreChoices};
ghost use Rattle.solved_rewards.specs.inside.Merged.{AreReplies, AreRanks, AreMerged};

use crate::lists::{bounded_list, value_list};
use crate::sources::Sources;
use game_model::Side;
use game_outside::OutOfMemory;
use std::alloc::Global;

/// These are the lists that are merged. Those of the rewards and of the finite states are given.
#[derive(Drop)]
pub struct MergedLists {
    pub bounded: Vec<bool>,
    pub lower: Vec<u64>,
    pub upper: Vec<u64>,
    pub choices: Vec<Option<u32>>,
    pub replies: Vec<Option<u32>>,
    pub ranks: Vec<u32>,
}

/// Merges sources, given the states that were found to have an upper value, and a candidate for the lower values. Goals
/// have an upper value anyway.
pub fn merge(
    alloc: Global,
    sources: &Sources<'_>,
    found: &[bool],
    lower: &[u64],
) -> Result<MergedLists, OutOfMemory>
    ensures { IfOk result (AreMerged sources.now found.now lower.now) }
{
    let question = sources.question;
    let bounded = bounded_list(alloc, question, found)?;
    let lower = value_list(alloc, question, sources.finite, lower)?;
    let upper = value_list(alloc, question, &bounded, &sources.candidates.upper)?;
    let choices = sources.choices(alloc, &lower)?;
    let replies = sources.replies(alloc, &bounded)?;
    let ranks = sources.ranks(alloc, &bounded)?;
    Ok(MergedLists {
        bounded,
        lower,
        upper,
        choices,
        replies,
        ranks,
    })
}

impl Sources<'_> {
    /// Returns the choices of the maximiser.
    fn choices(&self, alloc: Global, lower: &[u64]) -> Result<Vec<Option<u32>>, OutOfMemory>
        requires { length lower.now ≡ states self.now.question.now }
        ensures { IfOk result (λ list. AreChoices self.now lower.now list.items) }
    {
        let states = self.question.game().states();
        let mut list = Vec::with_capacity(alloc, states as usize)?;
        for state in 0..states {
            list.push(self.choice_at(lower, state))?;
        }
        Ok(list)
    }

    /// Returns the choice of the maximiser at a state, if one is asked for: its value is infinite or above 0.
    fn choice_at(&self, lower: &[u64], state: u32) -> Option<u32>
        requires lower { length lower.now ≡ states self.now.question.now }
        requires state { state < states self.now.question.now }
        ensures { IsChoiceAt self.now lower.now state result }
    {
        if self.question.is_goal(state) || self.question.side(state) == Side::Min {
            return None;
        }
        let place = state as usize;
        if !self.finite[place] {
            return self.away_choices[place];
        }
        if lower[place] == 0 {
            return None;
        }
        self.candidates.choices.get(place).copied()
    }

    /// Returns the replies of the minimiser.
    fn replies(&self, alloc: Global, bounded: &[bool]) -> Result<Vec<Option<u32>>, OutOfMemory>
        requires { length bounded.now ≡ states self.now.question.now }
        ensures { IfOk result (λ list. AreReplies self.now.question.now bounded.now list.items) }
    {
        let list = (0..self.question.game().states())
            .map(|state| self.reply_at(bounded, state))
            .collect(alloc)?;
        Ok(list)
    }

    /// Returns the reply of the minimiser at a state, if one is asked for: it has an upper value.
    fn reply_at(&self, bounded: &[bool], state: u32) -> Option<u32>
        requires bounded { length bounded.now ≡ states self.now.question.now }
        requires state { state < states self.now.question.now }
        ensures { IsSome result → NeedsReply self.now.question.now bounded.now state }
    {
        let place = state as usize;
        if self.question.is_goal(state)
            || self.question.side(state) == Side::Max
            || !bounded[place]
        {
            return None;
        }
        self.candidates.replies.get(place).copied()
    }

    /// Returns the ranks.
    fn ranks(&self, alloc: Global, bounded: &[bool]) -> Result<Vec<u32>, OutOfMemory>
        requires { length bounded.now ≡ states self.now.question.now }
        ensures { IfOk result (λ list.
            AreRanks self.now.question.now self.now.finite.now self.now.away_ranks.now list.items) }
    {
        let list = (0..self.question.game().states())
            .map(|state| self.rank_at(bounded, state))
            .collect(alloc)?;
        Ok(list)
    }

    /// Returns the rank of a state.
    fn rank_at(&self, bounded: &[bool], state: u32) -> u32
        requires bounded { length bounded.now ≡ states self.now.question.now }
        requires state { state < states self.now.question.now }
        ensures { is_finite self.now.finite.now state ≡ false
            → result ≡ slice_index self.now.away_ranks.now state }
    {
        let place = state as usize;
        if !self.finite[place] {
            return self.away_ranks[place];
        }
        if bounded[place] {
            return self.end_ranks[place];
        }
        0
    }
}
