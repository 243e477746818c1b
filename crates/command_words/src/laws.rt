//! This module has the laws of words. Each function does nothing: its contract is the law.

ghost use Rattle.std.specs.Prelude.{◌≡◌, List, pos};
ghost use Rattle.clap.specs.Words.{Text};
ghost use Rattle.command_words.specs.Limits.{most_rounds, most_workers, default_rounds, default_workers, most_seed, least_states, most_states};
ghost use Rattle.command_words.specs.Words.{Command, AreCommand};

use crate::limits::{
    DEFAULT_ROUNDS, DEFAULT_WORKERS, LEAST_STATES, MOST_ROUNDS, MOST_SEED, MOST_STATES,
    MOST_WORKERS,
};

/// The limits of the code are those of the definitions.
pub fn limits()
    ensures most_rounds { MOST_ROUNDS ≡ pos most_rounds }
    ensures most_workers { MOST_WORKERS ≡ pos most_workers }
    ensures default_rounds { DEFAULT_ROUNDS ≡ default_rounds }
    ensures default_workers { DEFAULT_WORKERS ≡ default_workers }
    ensures most_seed { MOST_SEED ≡ pos most_seed }
    ensures least_states { LEAST_STATES ≡ pos least_states }
    ensures most_states { MOST_STATES ≡ pos most_states }
{}

/// Words denote at most one command.
pub fn words_denote_one_command()
    ensures { (words : List Text) (a b : Command) → AreCommand words a → AreCommand words b → a ≡ b }
{}
