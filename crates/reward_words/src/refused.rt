//! This module says what is wrong with words that denote no command on rewards.

ghost use Rattle.std.specs.Prelude.{IfOk, MatchOption, map};
ghost use Rattle.std.specs.String.{string_bytes};
ghost use Rattle.reward_words.specs.Words.{AreNoRewardCommand, DenoteRewardCommand};

use crate::grammar::{audit_reward_command, solve_reward_command};
use crate::words::read_reward_words;
use command_words::fault_found;
use game_outside::OutOfMemory;
use std::alloc::Global;

/// Says what is wrong with words, exactly if they denote no command on rewards: the first line that `clap` has for it,
/// or that a file has no name. No clause says which text this is.
pub fn refused_reward_words(alloc: Global, words: &[String]) -> Result<Option<String>, OutOfMemory>
    ensures { IfOk result (λ told. MatchOption told (DenoteRewardCommand (map string_bytes words.now))
        (λ message. AreNoRewardCommand (map string_bytes words.now))) }
{
    match read_reward_words(alloc, words)? {
        Some(_) => Ok(None),
        None => Ok(Some(fault_in(alloc, words)?)),
    }
}

fn fault_in(alloc: Global, words: &[String]) -> Result<String, OutOfMemory> {
    match words {
        [] => Ok(String::from_str(alloc, "there is no command")?),
        [name, rest @ ..] => fault_behind(alloc, name.as_str(), rest),
    }
}

// Says what is wrong with the words after a name, or with the name.
fn fault_behind(alloc: Global, name: &str, words: &[String]) -> Result<String, OutOfMemory> {
    match name {
        "audit" => fault_found(alloc, audit_reward_command(alloc)?, words),
        "solve" => fault_found(alloc, solve_reward_command(alloc)?, words),
        _ => Ok(format!(in alloc; "{name} is no command with --rewards")?),
    }
}
