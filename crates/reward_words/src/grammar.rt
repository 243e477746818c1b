//! This module says how `clap` reads the words after the name of a command on rewards.

ghost use Rattle.std.specs.Prelude.{◌≡◌, false, IfOk};
ghost use Rattle.clap.specs.Words.{app_of, rule_of};
ghost use Rattle.reward_words.specs.Grammar.{needed_option as needed_rule, rewarded_app, audit_reward_app, solve_reward_app};

use clap::{Arg, Command};
use command_words::{asked_command, flag, option, positional};
use std::alloc::{AllocError, Global};

/// Makes the command `audit` on rewards, whose first word is read already.
pub fn audit_reward_command<'a>(alloc: Global) -> Result<Command<'a>, AllocError>
    ensures { IfOk result (λ command. app_of command ≡ audit_reward_app) }
{
    rewarded_command(alloc, "audit")?.arg(positional(alloc, "certificate"))
}

/// Makes the command `solve` on rewards, whose first word is read already.
pub fn solve_reward_command<'a>(alloc: Global) -> Result<Command<'a>, AllocError>
    ensures { IfOk result (λ command. app_of command ≡ solve_reward_app) }
{
    rewarded_command(alloc, "solve")?.arg(flag(alloc, "plan"))
}

// Makes a command of this name that asks a question on rewards.
fn rewarded_command<'a>(alloc: Global, name: &'a str) -> Result<Command<'a>, AllocError>
    ensures { IfOk result (λ command. app_of command ≡ rewarded_app name.entry.now) }
{
    asked_command(alloc, name)?.arg(needed_option(alloc, "rewards"))
}

// Makes an option with a value that must be given.
fn needed_option<'a>(alloc: Global, name: &'a str) -> Arg<'a>
    ensures rule { rule_of result ≡ needed_rule name.entry.now }
    ensures local { result.global ≡ false }
{
    option(alloc, name).required(true)
}
