//! This module poses the question of a formula with `X`.

ghost use Rattle.std.specs.Prelude.{◌≡◌, ◌<◌, ◌≤◌, All, IfOk, false, if◌then◌else◌, length, slice_index_or};
ghost use Rattle.game_model.specs.Limits.{unit};
ghost use Rattle.game_model.specs.Query.{states};
ghost use Rattle.formula_reader.specs.declared.formula.PathKind.TheVariants.{Next};
ghost use Rattle.formula_reader.specs.Formula.{IsFlat, tree_of};
ghost use Rattle.game_outside.specs.Answers.{AnswersOrWants};
ghost use Rattle.formula_sets.specs.Posing.{at_states, opening_at, next_question_of, pose_next_said, IsOutOfMemory};
ghost use Rattle.formula_sets.specs.Seen.{next_posing_of};

use crate::fault::PoseFault;
use crate::labels::{marks_of, same_marks};
use crate::question::{initial_of, sides_of};
use formula_reader::Formula;
use game_model::{Game, Question, UNIT};
use label_reader::{Labels, Owners};
use std::alloc::{AllocError, Global};

/// Holds a question of one step, whose states have no marks, and the initial states of its game in rising order.
#[derive(Drop)]
pub struct PosedNext<'g> {
    pub question: Question<'g>,
    /// This is the table from which the step is taken, in units by state: probability 1 where the right side holds, and
    /// otherwise 0.
    pub opening: Vec<u64>,
    pub initial: Vec<u32>,
}

// Returns probability 1 for a mark, and otherwise 0, in units.
fn units_at(mark: bool) -> u64
    ensures { result ≡ (if mark then unit else 0) }
{
    if mark { UNIT } else { 0 }
}

/// Returns probability 1 for each mark, and otherwise 0, in units.
pub fn units_of(alloc: Global, marks: &[bool]) -> Result<Vec<u64>, AllocError>
    ensures { IfOk result (λ table. table.items ≡ at_states (λ s. if slice_index_or marks.now s false then unit else 0)
        (length marks.now)) }
{
    (0..marks.len())
        .map(|place| units_at(marks[place]))
        .collect(alloc)
}

// Makes the table of probability 1 where the right side holds, and otherwise 0.
fn opening_of(
    alloc: Global,
    labels: &Labels,
    formula: &Formula,
    states: u32,
) -> Result<Vec<u64>, AllocError>
    requires { labels.now.states ≡ states }
    ensures { IfOk result (λ v. v.items ≡ at_states (opening_at labels.now (tree_of formula.now)) states) }
{
    let marks = marks_of(alloc, labels, &formula.right, states)?;
    units_of(alloc, &marks)
}

fn question_in<'g>(
    alloc: Global,
    game: &'g Game,
    owners: &Owners,
    formula: &Formula,
) -> Result<Question<'g>, AllocError>
    requires { length owners.now.owners ≡ length game.now }
    ensures { IfOk result (λ question. question ≡ next_question_of game.now owners.now (tree_of formula.now)) }
{
    let states = game.states();
    let sides = sides_of(alloc, owners, formula, states)?;
    let goals = same_marks(alloc, false, states)?;
    let deads = same_marks(alloc, false, states)?;
    Ok(Question::build(game, sides, goals, deads))
}

/// Poses the question of a formula with `X` about a game whose states have these labels and owners, and gives the table
/// from which its step is taken, or the first fault. What is said of a formula is what it poses:
/// `laws::questions_are_those_that_a_formula_poses`.
pub fn pose_next<'g>(
    alloc: Global,
    game: &'g Game,
    labels: &Labels,
    owners: &Owners,
    formula: &Formula,
) -> Result<PosedNext<'g>, PoseFault>
    requires kind { formula.now.kind ≡ Next }
    requires labels { labels.now.states ≡ length game.now }
    requires owners { length owners.now.owners ≡ length game.now }
    requires flat { IsFlat (tree_of formula.now) }
    ensures exact { AnswersOrWants IsOutOfMemory next_posing_of result
        (pose_next_said game.now labels.now owners.now (tree_of formula.now)) }
    ensures inside { IfOk result (λ posed. All (λ s. s < states posed.question) posed.initial.items) }
    ensures opening { IfOk result (λ posed. (length posed.opening.items ≡ states posed.question)
        × All (λ v. v ≤ unit) posed.opening.items) }
{
    let initial = initial_of(alloc, labels, owners, formula)?;
    let Ok(question) = question_in(alloc, game, owners, formula) else {
        return Err(PoseFault::OutOfMemory);
    };
    let Ok(opening) = opening_of(alloc, labels, formula, game.states()) else {
        return Err(PoseFault::OutOfMemory);
    };
    Ok(PosedNext {
        question,
        opening,
        initial,
    })
}
