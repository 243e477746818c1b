//! This module poses the question of a formula.

ghost use Rattle.std.specs.Prelude.{◌≡◌, ◌<◌, All, IfOk, length};
ghost use Rattle.game_model.specs.Query.{states};
ghost use Rattle.formula_reader.specs.Formula.{IsFlat, state_of, tree_of};
ghost use Rattle.formula_sets.specs.Truth.{holds};
ghost use Rattle.formula_sets.specs.Sides.{side_of};
ghost use Rattle.game_outside.specs.Answers.{AnswersOrWants};
ghost use Rattle.formula_sets.specs.Posing.{IsUntil, at_states, neither_holds, question_of, initial_said, pose_said, IsOutOfMemory};
ghost use Rattle.formula_sets.specs.Seen.{posing_of};

use crate::fault::PoseFault;
use crate::labels::{marks_of, unknown_label_of};
use crate::marks::{negate, unite};
use crate::sides::{side_at_state, unknown_player_of};
use formula_reader::Formula;
use game_model::{Game, Question, Side};
use label_reader::{Labels, Owners};
use std::alloc::{AllocError, Global};

/// Holds a question, and the initial states of its game in rising order.
#[derive(Drop)]
pub struct Posed<'g> {
    pub question: Question<'g>,
    pub initial: Vec<u32>,
}

/// Returns the side that chooses at each of `states` states.
pub fn sides_of(
    alloc: Global,
    owners: &Owners,
    formula: &Formula,
    states: u32,
) -> Result<Vec<Side>, AllocError>
    requires { length owners.now.owners ≡ states }
    ensures { IfOk result (λ v. v.items ≡ at_states (side_of
        (tree_of formula.now).coalition formula.now.bound owners.now) states) }
{
    (0..states)
        .map(|state| side_at_state(owners, &formula.coalition, &formula.bound, state))
        .collect(alloc)
}

// Marks where neither side holds, if the right side holds at the goals.
fn deads_of(
    alloc: Global,
    labels: &Labels,
    formula: &Formula,
    goals: &[bool],
    states: u32,
) -> Result<Vec<bool>, AllocError>
    requires states { labels.now.states ≡ states }
    requires goals { goals.now ≡ at_states (holds labels.now (state_of formula.now.right)) states }
    ensures { IfOk result (λ v. v.items ≡ at_states (neither_holds labels.now (tree_of formula.now)) states) }
{
    let mut deads = marks_of(alloc, labels, &formula.left, states)?;
    unite(&mut deads, goals);
    negate(&mut deads);
    Ok(deads)
}

fn question_in<'g>(
    alloc: Global,
    game: &'g Game,
    labels: &Labels,
    owners: &Owners,
    formula: &Formula,
) -> Result<Question<'g>, AllocError>
    requires labels { labels.now.states ≡ length game.now }
    requires owners { length owners.now.owners ≡ length game.now }
    ensures { IfOk result (λ question. question ≡ question_of game.now labels.now owners.now (tree_of formula.now)) }
{
    let states = game.states();
    let sides = sides_of(alloc, owners, formula, states)?;
    let goals = marks_of(alloc, labels, &formula.right, states)?;
    let deads = deads_of(alloc, labels, formula, &goals, states)?;
    Ok(Question::build(game, sides, goals, deads))
}

/// Returns the states with the label `init` in rising order, or the first reason why a formula poses no question.
pub fn initial_of(
    alloc: Global,
    labels: &Labels,
    owners: &Owners,
    formula: &Formula,
) -> Result<Vec<u32>, PoseFault>
    ensures said { AnswersOrWants IsOutOfMemory (λ initial. initial.items) result
        (initial_said labels.now owners.now (tree_of formula.now)) }
    ensures inside { IfOk result (λ initial. All (λ s. s < labels.now.states) initial.items) }
{
    labels.invariant();
    if let Some(name) = unknown_label_of(labels, formula) {
        return Err(PoseFault::label(alloc, name));
    }
    if let Some(name) = unknown_player_of(owners, formula) {
        return Err(PoseFault::player(alloc, name));
    }
    let Ok(initial) = labels.states_of(alloc, b"init") else {
        return Err(PoseFault::OutOfMemory);
    };
    if initial.is_empty() {
        return Err(PoseFault::NoInit);
    }
    Ok(initial)
}

/// Poses the question of a formula with `U` or `F` about a game whose states have these labels and owners, or gives its
/// first fault. What is said of a formula is what it poses: `laws::questions_are_those_that_a_formula_poses`.
pub fn pose<'g>(
    alloc: Global,
    game: &'g Game,
    labels: &Labels,
    owners: &Owners,
    formula: &Formula,
) -> Result<Posed<'g>, PoseFault>
    requires kind { IsUntil formula.now.kind }
    requires labels { labels.now.states ≡ length game.now }
    requires owners { length owners.now.owners ≡ length game.now }
    requires flat { IsFlat (tree_of formula.now) }
    ensures exact { AnswersOrWants IsOutOfMemory posing_of result
        (pose_said game.now labels.now owners.now (tree_of formula.now)) }
    ensures inside { IfOk result (λ posed. All (λ s. s < states posed.question) posed.initial.items) }
{
    let initial = initial_of(alloc, labels, owners, formula)?;
    let Ok(question) = question_in(alloc, game, labels, owners, formula) else {
        return Err(PoseFault::OutOfMemory);
    };
    Ok(Posed { question, initial })
}
