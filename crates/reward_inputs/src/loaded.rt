//! This module has what a command with rewards names: a game, its labels, its owners, its rewards and a formula.

ghost use Rattle.std.specs.Prelude.{◌≡◌, length, true};
ghost use Rattle.reward_formula.specs.Formula.{any_of};
ghost use Rattle.reward_inputs.specs.Forms.{has_form};

use game_model::Game;
use label_reader::{Labels, Owners};
use reward_formula::AnyFormula;
use rewards_reader::RewardTable;

/// This is a game, its labels, its owners, its rewards, and a formula. Labels and owners are those of the game's
/// states. The formula has the form of those that texts spell.
#[derive(Drop)]
pub struct LoadedRewards {
    pub game: Game,
    pub labels: Labels,
    pub owners: Owners,
    pub rewards: RewardTable,
    pub formula: AnyFormula,
    ghost labels_of: { labels.states ≡ length game },
    ghost owners_of: { length owners.owners ≡ length game },
    ghost form: { has_form (any_of formula) ≡ true },
}
