//! This module reads the words of the two commands on rewards: the first names the command, and `clap` reads the
//! others.

ghost use Rattle.std.specs.Prelude.{◌∷◌, IfOk, MatchOption, map};
ghost use Rattle.std.specs.String.{string_bytes};
ghost use Rattle.reward_words.specs.Words.{AuditReward, SolveReward, AreAuditRewardWords, AreSolveRewardWords, AreRewardCommand, AreNoRewardCommand, audit_reward_of, solve_reward_of, reward_command_of};

use crate::grammar::{audit_reward_command, solve_reward_command};
use crate::said::{audit_reward_words, solve_reward_words};
use command_words::{AskedWords, taken};
use game_outside::OutOfMemory;
use std::alloc::Global;

/// These are the words of `audit` on rewards: `TRA LAB FORMULA CERT --rewards FILE [--own FILE]`.
#[derive(Clone, Copy, Debug)]
pub struct AuditRewardWords<'a> {
    /// This is the question.
    pub asked: AskedWords<'a>,
    /// This is the name of the file of rewards.
    pub rewards: &'a str,
    /// This is the name of the file of the certificate.
    pub certificate: &'a str,
}

/// These are the words of `solve` on rewards: `TRA LAB FORMULA --rewards FILE [--own FILE] [--plan]`.
#[derive(Clone, Copy, Debug)]
pub struct SolveRewardWords<'a> {
    /// This is the question.
    pub asked: AskedWords<'a>,
    /// This is the name of the file of rewards.
    pub rewards: &'a str,
    /// The certificate is to be written if this is true.
    pub plan: bool,
}

/// These are the words of one of the two commands on rewards.
#[derive(Clone, Copy, Debug)]
pub enum RewardWords<'a> {
    /// These are the words of `audit`.
    Audit(AuditRewardWords<'a>),
    /// These are the words of `solve`.
    Solve(SolveRewardWords<'a>),
}

/// Returns the command on rewards that the words denote, or none if they denote no such command. The only error is that
/// memory ran out.
pub fn read_reward_words(
    alloc: Global,
    words: &[String],
) -> Result<Option<RewardWords<'_>>, OutOfMemory>
    ensures { IfOk result (λ read. MatchOption read (AreNoRewardCommand (map string_bytes words.now))
        (λ command. AreRewardCommand (map string_bytes words.now) (reward_command_of command))) }
{
    match words {
        [name, rest @ ..] => read_command(alloc, name.as_str(), rest),
        [] => Ok(None),
    }
}

// Returns the command of this name that the words after it denote, or none.
fn read_command<'a>(
    alloc: Global,
    name: &str,
    words: &'a [String],
) -> Result<Option<RewardWords<'a>>, OutOfMemory>
    ensures { IfOk result (λ read. MatchOption read (AreNoRewardCommand (name.now ∷ map string_bytes words.entry.now))
        (λ command. AreRewardCommand (name.now ∷ map string_bytes words.entry.now) (reward_command_of command))) }
{
    match name {
        "audit" => Ok(read_audit(alloc, words)?.map(RewardWords::Audit)),
        "solve" => Ok(read_solve(alloc, words)?.map(RewardWords::Solve)),
        _ => Ok(None),
    }
}

// Returns what the words after `audit` say, or none if they denote no command.
fn read_audit(alloc: Global, words: &[String]) -> Result<Option<AuditRewardWords<'_>>, OutOfMemory>
    ensures { IfOk result (λ read. MatchOption read ((audit : AuditReward)
        → AreAuditRewardWords (map string_bytes words.now) audit → ⊥)
        (λ audit. AreAuditRewardWords (map string_bytes words.now) (audit_reward_of audit))) }
{
    match taken(audit_reward_command(alloc)?, words)? {
        Some(matches) => Ok(audit_reward_words(&matches)),
        None => Ok(None),
    }
}

// Returns what the words after `solve` say, or none if they denote no command.
fn read_solve(alloc: Global, words: &[String]) -> Result<Option<SolveRewardWords<'_>>, OutOfMemory>
    ensures { IfOk result (λ read. MatchOption read ((solve : SolveReward)
        → AreSolveRewardWords (map string_bytes words.now) solve → ⊥)
        (λ solve. AreSolveRewardWords (map string_bytes words.now) (solve_reward_of solve))) }
{
    match taken(solve_reward_command(alloc)?, words)? {
        Some(matches) => Ok(solve_reward_words(&matches)),
        None => Ok(None),
    }
}
