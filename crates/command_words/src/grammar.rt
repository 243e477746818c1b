//! This module says how `clap` reads the words after the name of a command.

ghost use Rattle.std.specs.Prelude.{◌≡◌, false, IfOk, codes};
ghost use Rattle.clap.specs.Words.{app_of, rule_of};
ghost use Rattle.command_words.specs.Grammar.{bare_app, asked_app, check_app, audit_app, solve_app, make_app, sure_app, with_run_limits as app_with_run_limits, with_range, option as option_rule, flag as flag_rule, positional as positional_rule};
ghost use Rattle.command_words.specs.Limits.{most_rounds, most_workers, most_seed, least_states, most_states};

use crate::limits::{LEAST_STATES, MOST_ROUNDS, MOST_SEED, MOST_STATES, MOST_WORKERS};
use clap::{Arg, ArgAction, Command};
use std::alloc::{AllocError, Global};

/// Makes the command `check`, whose first word is read already.
pub fn check_command<'a>(alloc: Global) -> Result<Command<'a>, AllocError>
    ensures { IfOk result (λ command. app_of command ≡ check_app) }
{
    with_run_limits(alloc, asked_command(alloc, "check")?)?
        .arg(flag(alloc, "plan"))?
        .arg(flag(alloc, "traps"))
}

/// Makes the command `audit`, whose first word is read already.
pub fn audit_command<'a>(alloc: Global) -> Result<Command<'a>, AllocError>
    ensures { IfOk result (λ command. app_of command ≡ audit_app) }
{
    asked_command(alloc, "audit")?.arg(positional(alloc, "certificate"))
}

/// Makes the command `solve`, whose first word is read already.
pub fn solve_command<'a>(alloc: Global) -> Result<Command<'a>, AllocError>
    ensures { IfOk result (λ command. app_of command ≡ solve_app) }
{
    asked_command(alloc, "solve")?
        .arg(option(alloc, "values"))?
        .arg(flag(alloc, "plan"))
}

/// Makes the command `sure`, whose first word is read already.
pub fn sure_command<'a>(alloc: Global) -> Result<Command<'a>, AllocError>
    ensures { IfOk result (λ command. app_of command ≡ sure_app) }
{
    asked_command(alloc, "sure")
}

/// Makes the command `make`, whose first word is read already.
pub fn make_command<'a>(alloc: Global) -> Result<Command<'a>, AllocError>
    ensures { IfOk result (λ command. app_of command ≡ make_app) }
{
    let command = bare_command(alloc, "make")
        .arg(seed(alloc))?
        .arg(states(alloc))?;
    with_run_limits(alloc, command)
}

/// Makes the command `check` with any words for its numbers.
pub(crate) fn check_with_any_numbers<'a>(alloc: Global) -> Result<Command<'a>, AllocError> {
    with_any_limits(alloc, asked_command(alloc, "check")?)?
        .arg(flag(alloc, "plan"))?
        .arg(flag(alloc, "traps"))
}

/// Makes the command `make` with any words for its numbers.
pub(crate) fn make_with_any_numbers<'a>(alloc: Global) -> Result<Command<'a>, AllocError> {
    let command = bare_command(alloc, "make")
        .arg(positional(alloc, "seed"))?
        .arg(positional(alloc, "states"))?;
    with_any_limits(alloc, command)
}

fn with_any_limits<'a>(alloc: Global, command: Command<'a>) -> Result<Command<'a>, AllocError> {
    command
        .arg(option(alloc, "rounds"))?
        .arg(option(alloc, "workers"))
}

/// Makes a command of this name that asks a question.
pub fn asked_command<'a>(alloc: Global, name: &'a str) -> Result<Command<'a>, AllocError>
    ensures { IfOk result (λ command. app_of command ≡ asked_app name.entry.now) }
{
    bare_command(alloc, name)
        .arg(positional(alloc, "tra"))?
        .arg(positional(alloc, "lab"))?
        .arg(positional(alloc, "formula"))?
        .arg(option(alloc, "own"))
}

// Makes a command of this name, whose name is read already, and that knows no `--help`.
fn bare_command<'a>(alloc: Global, name: &'a str) -> Command<'a>
    ensures { app_of result ≡ bare_app name.entry.now }
{
    Command::new(alloc, name)
        .no_binary_name(true)
        .disable_help_flag(true)
}

// Adds the options that say how far a run goes.
fn with_run_limits<'a>(alloc: Global, command: Command<'a>) -> Result<Command<'a>, AllocError>
    ensures { IfOk result (λ limited. app_of limited ≡ app_with_run_limits (app_of command.entry)) }
{
    command.arg(rounds(alloc))?.arg(workers(alloc))
}

/// Makes a word that must be given, and is known by its place.
pub fn positional<'a>(alloc: Global, name: &'a str) -> Arg<'a>
    ensures rule { rule_of result ≡ positional_rule name.entry.now }
    ensures local { result.global ≡ false }
{
    Arg::new(alloc, name).required(true)
}

/// Makes an option with a value.
pub fn option<'a>(alloc: Global, name: &'a str) -> Arg<'a>
    ensures rule { rule_of result ≡ option_rule name.entry.now }
    ensures local { result.global ≡ false }
{
    Arg::new(alloc, name).long(name)
}

fn seed<'a>(alloc: Global) -> Arg<'a>
    ensures rule { rule_of result ≡ with_range (positional_rule (codes "seed")) 1 most_seed }
    ensures local { result.global ≡ false }
{
    positional(alloc, "seed").value_parser(clap::value_parser!(u32).range(1..=MOST_SEED))
}

fn states<'a>(alloc: Global) -> Arg<'a>
    ensures rule { rule_of result ≡ with_range (positional_rule (codes "states")) least_states most_states }
    ensures local { result.global ≡ false }
{
    positional(alloc, "states").value_parser(clap::value_parser!(u32).range(
        LEAST_STATES..=MOST_STATES,
    ))
}

fn rounds<'a>(alloc: Global) -> Arg<'a>
    ensures rule { rule_of result ≡ with_range (option_rule (codes "rounds")) 0 most_rounds }
    ensures local { result.global ≡ false }
{
    option(alloc, "rounds").value_parser(clap::value_parser!(u32).range(0..=MOST_ROUNDS))
}

fn workers<'a>(alloc: Global) -> Arg<'a>
    ensures rule { rule_of result ≡ with_range (option_rule (codes "workers")) 1 most_workers }
    ensures local { result.global ≡ false }
{
    option(alloc, "workers").value_parser(clap::value_parser!(u32).range(1..=MOST_WORKERS))
}

/// Makes an option without a value.
pub fn flag<'a>(alloc: Global, name: &'a str) -> Arg<'a>
    ensures rule { rule_of result ≡ flag_rule name.entry.now }
    ensures local { result.global ≡ false }
{
    option(alloc, name).action(ArgAction::SetTrue)
}
