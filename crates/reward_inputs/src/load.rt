//! This module reads and judges the texts of a run with rewards, one after another.

ghost use Rattle.std.specs.Prelude.{◌≡◌, IfOk, IsErrOf, Err, length, true};
ghost use Rattle.command_words.specs.Words.{asked_of_words};
ghost use Rattle.output.specs.declared.refusal.Refusal.{Refusal};
ghost use Rattle.inputs.specs.Loading.{LoadingLeaves, EndsCaused};
ghost use Rattle.inputs.specs.Posed.{HasSizes};
ghost use Rattle.inputs.specs.Said as plain;
ghost use Rattle.reward_formula.specs.Formula.{any_of};
ghost use Rattle.reward_formula.specs.Rules.{Denotes};
ghost use Rattle.reward_refusals.specs.Caused.{IsShared};
ghost use Rattle.reward_inputs.specs.Forms.{has_form};
ghost use Rattle.reward_inputs.specs.Loading.{LoadsAs, LoadsRewards, RewardLoadingLeaves, RewardEndsCaused, AsksNothing};
ghost use Rattle.reward_inputs.specs.Questions.{SaysModel};
ghost use Rattle.reward_inputs.specs.Seen.{model_of};
ghost use Rattle.reward_inputs.specs.Texts.{formula_read};

use crate::end::RewardEnd;
use command_words::AskedWords;
use formula_tokens::FormulaCause;
use game_model::Game;
use game_outside::{FileEnd, Shelf};
use inputs::{End, load_game, load_labels, load_owners};
use label_reader::{Labels, Owners};
use output::Refusal;
use reward_formula::laws::formulas_are_those_that_a_text_denotes;
use reward_formula::{AnyFormula, read_any_formula};
use reward_refusals::RewardRefusal;
use rewards_reader::{RewardTable, read_rewards_from};
use std::alloc::Global;
use text_lines::MOST_BYTES;

/// This is a game, its labels and its owners.
#[derive(Drop)]
pub struct LoadedModel {
    pub game: Game,
    pub labels: Labels,
    pub owners: Owners,
}

/// Reads the game, its labels and its owners, as a question of probabilities does.
pub fn load_first<H: Shelf>(
    alloc: Global,
    shelf: &mut H,
    asked: &AskedWords<'_>,
) -> Result<LoadedModel, End>
    ensures reads { IfOk result (λ it. SaysModel (H.held shelf.old) (asked_of_words asked.now)
        (plain.Denoted (model_of it))) }
    ensures sizes { IfOk result (λ it. HasSizes it.game it.labels it.owners) }
    ensures refused { (refusal : Refusal) → result ≡ Err (End.Refused refusal)
        → SaysModel (H.held shelf.old) (asked_of_words asked.now) (plain.Refuses refusal) }
    ensures shared { (refusal : Refusal) → result ≡ Err (End.Refused refusal) → IsShared refusal }
    ensures steadily { IsErrOf result End.ReadFault → H.steady shelf.old ≡ true
        → SaysModel (H.held shelf.old) (asked_of_words asked.now) plain.NotHeld }
    ensures shelf { LoadingLeaves H.held H.steady H.faults H.taken shelf.old shelf.new result }
    ensures caused { EndsCaused result }
{
    let game = load_game(alloc, shelf, asked.tra)?;
    let labels = load_labels(alloc, shelf, asked.lab, game.states())?;
    let owners = load_owners(alloc, shelf, asked.own, game.states())?;
    Ok(LoadedModel {
        game,
        labels,
        owners,
    })
}

/// Reads the rewards of a game.
pub fn load_rewards<H: Shelf>(
    alloc: Global,
    shelf: &mut H,
    name: &str,
    game: &Game,
) -> Result<RewardTable, RewardEnd>
    ensures says { LoadsRewards (H.held shelf.old) (H.steady shelf.old) name.now game.now result }
    ensures shelf { RewardLoadingLeaves H.held H.steady H.faults H.taken shelf.old shelf.new result }
    ensures caused { RewardEndsCaused result }
{
    match read_rewards_from(alloc, shelf, name, MOST_BYTES as u64, game) {
        Ok(rewards) => Ok(rewards),
        Err(FileEnd::OutOfMemory) => Err(RewardEnd::OutOfMemory),
        Err(FileEnd::ReadFault) => Err(RewardEnd::ReadFault),
        Err(FileEnd::TooLong) => Err(RewardEnd::Refused(RewardRefusal::RewardsTooLong)),
        Err(FileEnd::Refused(fault)) => { Err(RewardEnd::Refused(RewardRefusal::OfRewards(fault))) }
    }
}

/// Reads the formula of a command, which may be one of rewards.
pub fn load_any_formula(alloc: Global, text: &str) -> Result<AnyFormula, RewardEnd>
    ensures says { LoadsAs any_of result (formula_read text.now) }
    ensures spelled { IfOk result (λ formula. Denotes text.now (any_of formula)) }
    ensures form { IfOk result (λ formula. has_form (any_of formula) ≡ true) }
    ensures nothing { AsksNothing result }
{
    // This call states a law and does nothing.
    formulas_are_those_that_a_text_denotes();
    match read_any_formula(alloc, text) {
        Ok(formula) => Ok(formula),
        Err(fault) => match fault.cause {
            FormulaCause::OutOfMemory => Err(RewardEnd::OutOfMemory),
            _ => {
                let refusal = Refusal::OfFormula(fault);
                Err(RewardEnd::Refused(RewardRefusal::Shared(refusal)))
            }
        },
    }
}
