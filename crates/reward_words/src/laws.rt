//! This module has the laws of words. Each function does nothing: its contract is the law.

ghost use Rattle.std.specs.Prelude.{◌≡◌, List};
ghost use Rattle.clap.specs.Words.{Text};
ghost use Rattle.command_words.specs.Words.{AreNoCommand};
ghost use Rattle.reward_words.specs.Words.{RewardCommand, AreRewardCommand, DenoteRewardCommand};

/// Words denote at most one command on rewards.
pub fn words_denote_one_reward_command()
    ensures { (words : List Text) (a b : RewardCommand) → AreRewardCommand words a → AreRewardCommand words b → a ≡ b }
{}

/// Words that denote a command on rewards denote none of the commands without rewards.
pub fn reward_words_are_no_other_command()
    ensures { (words : List Text) → DenoteRewardCommand words → AreNoCommand words }
{}
