//! These are the lists of a question, and questions with one goal.

ghost use Rattle.std.specs.Prelude.{◌≡◌, ◌≢◌, ℕ, ◌<◌, length, All, slice_index_or, true, false, IfOk};

use game_model::{Game, Question, Side};
use std::alloc::{AllocError, Global};

// One side owns all states.
fn all_of(alloc: Global, side: Side, states: u32) -> Result<Vec<Side>, AllocError>
    ensures { IfOk result (λ sides. length sides.items ≡ states) }
{
    (0..states).map(|_state| side).collect(alloc)
}

// The minimiser owns one state, and the maximiser owns the others.
fn least_at(alloc: Global, place: u32, states: u32) -> Result<Vec<Side>, AllocError>
    requires { place < states }
    ensures { IfOk result (λ sides. length sides.items ≡ states) }
{
    let mut sides = all_of(alloc, Side::Max, states)?;
    sides[place as usize] = Side::Min;
    Ok(sides)
}

// Marks one state only, or none if it is past the last.
fn only(alloc: Global, marked: u32, states: u32) -> Result<Vec<bool>, AllocError>
    ensures many { IfOk result (λ marks. length marks.items ≡ states) }
    ensures marks { IfOk result (λ marks. (s : ℕ) → slice_index_or marks.items s false ≡ true → s ≡ marked) }
{
    let mut marks = Vec::new(alloc);
    for state in 0..states {
        marks.push(state == marked)?;
    }
    Ok(marks)
}

// Marks no state.
fn none_of(alloc: Global, states: u32) -> Result<Vec<bool>, AllocError>
    ensures many { IfOk result (λ marks. length marks.items ≡ states) }
    ensures none { IfOk result (λ marks. All (λ b. b ≡ false) marks.items) }
{
    (0..states).map(|_state| false).collect(alloc)
}

/// Asks how likely this goal is reached if one side chooses at all states. No state is dead. No state is a goal if the
/// goal is past the last state.
pub fn question_of(
    alloc: Global,
    game: &Game,
    side: Side,
    goal: u32,
) -> Result<Question<'_>, AllocError>
    ensures { IfOk result (λ question. question.game ≡ game.now) }
{
    let sides = all_of(alloc, side, game.states())?;
    question_of_sides(alloc, game, sides, goal)
}

// Asks how likely this goal is reached if these sides choose. No state is dead. No state is a goal if the goal is past
// the last state.
fn question_of_sides(
    alloc: Global,
    game: &Game,
    sides: Vec<Side>,
    goal: u32,
) -> Result<Question<'_>, AllocError>
    requires { length sides.items ≡ length game.now }
    ensures { IfOk result (λ question. question.game ≡ game.now) }
{
    let states = game.states();
    let goals = only(alloc, goal, states)?;
    Ok(Question::build(game, sides, goals, none_of(alloc, states)?))
}

/// Asks how likely this goal is reached if the minimiser chooses at one state and the maximiser at the others. No state
/// is dead.
pub fn question_with_minimiser_at(
    alloc: Global,
    game: &Game,
    place: u32,
    goal: u32,
) -> Result<Question<'_>, AllocError>
    requires { place < length game.now }
    ensures { IfOk result (λ question. question.game ≡ game.now) }
{
    let sides = least_at(alloc, place, game.states())?;
    question_of_sides(alloc, game, sides, goal)
}

/// Asks how likely this goal is reached if one side chooses at all states and one state is dead. A goal or a dead state
/// past the last state does not count.
pub fn question_with_dead(
    alloc: Global,
    game: &Game,
    side: Side,
    goal: u32,
    dead: u32,
) -> Result<Question<'_>, AllocError>
    requires { goal ≢ dead }
    ensures { IfOk result (λ question. question.game ≡ game.now) }
{
    let states = game.states();
    let sides = all_of(alloc, side, states)?;
    let goals = only(alloc, goal, states)?;
    Ok(Question::build(game, sides, goals, only(alloc, dead, states)?))
}
