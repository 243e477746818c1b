//! These are games with their questions: a coin that is thrown again and again, and an agreement protocol.

use crate::draft::{Draft, question_with};
use game_model::{Game, Question};
use std::alloc::Global;

/// A coin is thrown again and again. State 0 stays with weight 2, wins with weight 1 and loses with weight 1.
pub fn coin_game(alloc: Global) -> Option<Game> {
    let mut draft = Draft::new(alloc, 3);
    draft.one(alloc, &[(0, 2), (1, 1), (2, 1)])?;
    draft.one(alloc, &[(1, 1)])?;
    draft.one(alloc, &[(2, 1)])?;
    draft.game(alloc)
}

/// How likely is a win? State 1 is the goal.
pub fn coin_question(alloc: Global, game: &Game) -> Option<Question<'_>> {
    question_with(alloc, game, &[], &[1], &[])
}

/// This is a randomised agreement protocol between two processes.
pub fn agreement_game(alloc: Global) -> Option<Game> {
    let mut draft = Draft::new(alloc, 12);
    draft.two(alloc, &[(1, 1), (2, 1), (3, 1)], &[(9, 1)])?;
    draft.two(alloc, &[(6, 1)], &[(5, 1)])?;
    draft.one(
        alloc,
        &[(7, 90_000_000_000_000_002), (10, 10_000_000_000_000_001)],
    )?;
    draft.one(alloc, &[(0, 1), (4, 1)])?;
    draft.one(alloc, &[(11, 1)])?;
    draft.one(
        alloc,
        &[(4, 17_499_999_999_999_999), (10, 7_500_000_000_000_001)],
    )?;
    draft.one(alloc, &[(4, 1)])?;
    draft.one(alloc, &[(8, 1)])?;
    draft.one(alloc, &[(4, 1)])?;
    draft.two(alloc, &[(9, 1)], &[(4, 1)])?;
    draft.one(alloc, &[(10, 1)])?;
    draft.one(alloc, &[(11, 1)])?;
    draft.game(alloc)
}

/// How likely can the first process make the protocol end well? State 11 is the goal, state 10 is dead, and
/// the second process chooses at the states 1, 2, 8 and 9.
pub fn agreement_question(alloc: Global, game: &Game) -> Option<Question<'_>> {
    question_with(alloc, game, &[1, 2, 8, 9], &[11], &[10])
}
