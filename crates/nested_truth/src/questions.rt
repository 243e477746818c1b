//! This module has the two questions of a formula whose sides are known in part.

ghost use Rattle.std.specs.Prelude.{◌≡◌, ◌≢◌, ◌<◌, ◌&&◌, ◌↔◌, ℕ, not, length, slice_index_or, true, false, IfOk, IfSome};
ghost use Rattle.game_model.specs.Query.{states};
ghost use Rattle.formula_reader.specs.Formula.{tree_of};
ghost use Rattle.formula_sets.specs.Posing.{at_states, next_question_of, question_with};

use crate::known_sets::{KnownSets, are_equal};
use crate::setting::Setting;
use formula_reader::Formula;
use formula_sets::{same_marks, sides_of};
use game_model::Question;
use game_outside::OutOfMemory;
use std::alloc::{AllocError, Global};

/// One question is that of the sure states, and the other that of the possible states.
#[derive(Drop)]
pub struct Questions<'g> {
    /// This is the question of the sure states.
    pub low: Question<'g>,
    /// This is the question of the possible states, if it is another.
    pub high: Option<Question<'g>>,
}

impl<'g> Questions<'g> {
    ghost use Rattle.formula_truth.specs.InnerRuns.{pessimistic, optimistic};
    ghost use Rattle.nested_truth.specs.Seen.{high_or, model_of, seen};

    /// Makes the questions of a formula from what is known of its sides.
    pub fn of_formula(
        alloc: Global,
        setting: Setting<'g>,
        formula: &Formula,
        left: &KnownSets,
        right: &KnownSets,
    ) -> Result<Questions<'g>, OutOfMemory>
        requires left { length left.now.sure.items ≡ length setting.game.now }
        requires right { length right.now.sure.items ≡ length setting.game.now }
        ensures low { IfOk result (λ questions. questions.low
            ≡ pessimistic (model_of setting.entry) (tree_of formula.now) (seen left.now) (seen right.now)) }
        ensures other { IfOk result (λ questions. IfSome questions.high (λ question. questions.low ≢ question)) }
        ensures high { IfOk result (λ questions. high_or questions.low questions.high
            ≡ optimistic (model_of setting.entry) (tree_of formula.now) (seen left.now) (seen right.now)) }
    {
        let low_deads = deads_of(alloc, &left.sure, &right.sure)?;
        let high_deads = deads_of(alloc, &left.possible, &right.possible)?;
        let same = are_same(&right.sure, &right.possible, &low_deads, &high_deads);
        let low = question_in(alloc, setting, formula, &right.sure, low_deads)?;
        if same {
            return Ok(Questions { low, high: None });
        }
        let high = question_in(alloc, setting, formula, &right.possible, high_deads)?;
        Ok(Questions {
            low,
            high: Some(high),
        })
    }
}

// Returns whether two questions have the same goals and the same dead states.
fn are_same(goals: &[bool], others: &[bool], deads: &[bool], other_deads: &[bool]) -> bool
    ensures { (result ≡ true) ↔ ((goals.now ≡ others.now) × (deads.now ≡ other_deads.now)) }
{
    are_equal(goals, others) && are_equal(deads, other_deads)
}

// Returns the dead states, where neither side holds.
fn deads_of(alloc: Global, left: &[bool], right: &[bool]) -> Result<Vec<bool>, AllocError>
    requires { length left.now ≡ length right.now }
    ensures { IfOk result (λ v. v.items ≡ at_states (λ s. not (slice_index_or right.now s false)
        && not (slice_index_or left.now s false)) (length right.now)) }
{
    let mut marks = Vec::with_capacity(alloc, right.len())?;
    for place in 0..right.len() {
        marks.push(neither(right[place], left[place]))?;
    }
    Ok(marks)
}

fn neither(one: bool, other: bool) -> bool
    ensures { result ≡ (not one && not other) }
{
    !one && !other
}

// Makes the question of a formula with these goals and dead states.
fn question_in<'g>(
    alloc: Global,
    setting: Setting<'g>,
    formula: &Formula,
    goals: &[bool],
    deads: Vec<bool>,
) -> Result<Question<'g>, OutOfMemory>
    requires goals { length goals.now ≡ length setting.game.now }
    requires deads { length deads.items ≡ length setting.game.now }
    requires apart { (s : ℕ) → slice_index_or goals.now s false ≡ true → slice_index_or deads.items s false ≡ false }
    ensures { IfOk result (λ question. question ≡ question_with setting.entry.game.now setting.entry.owners.now
        (tree_of formula.now) goals.now deads.items) }
{
    let sides = sides_of(alloc, setting.owners, formula, setting.game.states())?;
    let goals = goals.to_vec(alloc)?;
    Ok(Question::build(setting.game, sides, goals, deads))
}

/// Makes the question of a formula with `X`, which has no marks.
pub fn next_question<'g>(
    alloc: Global,
    setting: Setting<'g>,
    formula: &Formula,
) -> Result<Question<'g>, OutOfMemory>
    ensures { IfOk result (λ question. question ≡ next_question_of setting.entry.game.now setting.entry.owners.now
        (tree_of formula.now)) }
{
    let states = setting.game.states();
    let goals = same_marks(alloc, false, states)?;
    let deads = same_marks(alloc, false, states)?;
    question_in(alloc, setting, formula, &goals, deads)
}
