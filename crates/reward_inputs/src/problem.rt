//! This module poses the question of a formula of rewards.

ghost use Rattle.std.specs.Prelude.{◌≡◌, ◌<◌, ℕ, List, All, Err, IfOk, false, true};
ghost use Rattle.formula_reader.specs.Formula.{is_flat, state_of, tree_of};
ghost use Rattle.game_model.specs.Query.{states, is_dead};
ghost use Rattle.rewards_reader.specs.declared.line.RewardLine.{RewardLine};
ghost use Rattle.reward_formula.specs.Formula.{OfReward, any_of, reward_tree_of};
ghost use Rattle.reward_inputs.specs.declared.problem.RewardProblem.{RewardProblem as Seen};
ghost use Rattle.reward_inputs.specs.Forms.{has_left};
ghost use Rattle.reward_inputs.specs.Loading.{LoadsAs, AsksNothing};
ghost use Rattle.reward_inputs.specs.Posed.{plain_refused, posed_with, rewards_posed};
ghost use Rattle.reward_inputs.specs.Seen.{model_in, question_of, reading_of};

use crate::end::RewardEnd;
use crate::loaded::LoadedRewards;
use crate::reach::reach_of;
use formula_reader::Formula;
use formula_sets::{initial_of, pose};
use game_model::Question;
use output::Refusal;
use reward_formula::{AnyFormula, RewardFormula};
use reward_refusals::RewardRefusal;
use std::alloc::Global;

/// This is the question of a formula of rewards: which reward is expected before a goal is reached. No state is dead.
#[derive(Drop)]
pub struct RewardProblem<'g> {
    pub question: Question<'g>,
    /// These are the initial states, in rising order.
    pub initial: Vec<u32>,
    /// This formula asks it.
    pub formula: &'g RewardFormula,
}

/// Poses the question of what was loaded. A formula of probabilities is refused: for the fault that it has without
/// rewards, and otherwise because it is of the wrong kind.
pub fn pose_rewards(alloc: Global, loaded: &LoadedRewards) -> Result<RewardProblem<'_>, RewardEnd>
    ensures says { (lines : List RewardLine)
        → LoadsAs (question_of lines) result (rewards_posed (reading_of loaded.now lines)) }
    ensures game { IfOk result (λ it. it.question.game ≡ loaded.now.game) }
    ensures formula { IfOk result (λ it. any_of loaded.now.formula ≡ OfReward (reward_tree_of it.formula.now)) }
    ensures alive { IfOk result (λ it. (s : ℕ) → s < states it.question → is_dead it.question s ≡ false) }
    ensures inside { IfOk result (λ it. All (λ s. s < states it.question) it.initial.items) }
    ensures nothing { AsksNothing result }
{
    match &loaded.formula {
        AnyFormula::OfProbability(formula) => Err(refuse_probability(alloc, loaded, formula)),
        AnyFormula::OfReward(formula) => pose_reward(alloc, loaded, formula),
    }
}

// Returns why a formula of probabilities is refused.
fn refuse_probability(alloc: Global, loaded: &LoadedRewards, formula: &Formula) -> RewardEnd
    requires form { has_left formula.now.kind (state_of formula.now.left) ≡ true }
    ensures says { (lines : List RewardLine) → LoadsAs {X = Seen} (question_of lines) (Err result)
        (plain_refused (model_in loaded.now) (tree_of formula.now)) }
    ensures nothing { AsksNothing {X = Seen} (Err result) }
{
    match initial_of(alloc, &loaded.labels, &loaded.owners, formula) {
        Ok(_) => RewardEnd::Refused(RewardRefusal::Shared(Refusal::WrongKind)),
        Err(fault) => RewardEnd::from(fault),
    }
}

// Poses the question of a formula of rewards.
fn pose_reward<'g>(
    alloc: Global,
    loaded: &'g LoadedRewards,
    formula: &'g RewardFormula,
) -> Result<RewardProblem<'g>, RewardEnd>
    requires flat { is_flat (state_of formula.now.goal) ≡ true }
    ensures says { (lines : List RewardLine) → LoadsAs (question_of lines) result
        (posed_with (model_in loaded.now) lines (OfReward (reward_tree_of formula.now))) }
    ensures game { IfOk result (λ it. it.question.game ≡ loaded.now.game) }
    ensures formula { IfOk result (λ it. it.formula.now ≡ formula.now) }
    ensures alive { IfOk result (λ it. (s : ℕ) → s < states it.question → is_dead it.question s ≡ false) }
    ensures inside { IfOk result (λ it. All (λ s. s < states it.question) it.initial.items) }
    ensures nothing { AsksNothing result }
{
    let reach = reach_of(alloc, formula)?;
    let posed = pose(alloc, &loaded.game, &loaded.labels, &loaded.owners, &reach)?;
    Ok(RewardProblem {
        question: posed.question,
        initial: posed.initial,
        formula,
    })
}
