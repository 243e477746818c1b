//! This module reads the words of the command line: the first names the command, and `clap` reads the others.

ghost use Rattle.std.specs.Prelude.{◌≡◌, ◌∷◌, [], IfOk, MatchOption, map, true};
ghost use Rattle.std.specs.String.{string_bytes};
ghost use Rattle.clap.specs.Words.{app_of, fault_of, is_simple_and_free};
ghost use Rattle.command_words.specs.Grammar.{FindsIn};
ghost use Rattle.command_words.specs.Words.{Asked, Check, Audit, Solve, Make, AreCheckWords, AreAuditWords, AreSolveWords, AreMakeWords, AreSureWords, AreCommand, AreNoCommand, asked_of_words, check_of, audit_of, solve_of, make_of, command_of};

use crate::grammar::{audit_command, check_command, make_command, solve_command, sure_command};
use crate::said::{asked_words, audit_words, check_words, make_words, solve_words};
use clap::error::ErrorKind;
use clap::{ArgMatches, Command};
use game_outside::OutOfMemory;
use std::alloc::Global;

/// These words ask a question, and are those of `sure`: `TRA LAB FORMULA [--own FILE]`.
#[derive(Clone, Copy, Debug)]
pub struct AskedWords<'a> {
    /// This is the name of the transition file.
    pub tra: &'a str,
    /// This is the name of the label file.
    pub lab: &'a str,
    /// This is the formula.
    pub formula: &'a str,
    /// This is the name of the owner file, if one is given.
    pub own: Option<&'a str>,
}

/// These are the words of `check`: `TRA LAB FORMULA [--own FILE] [--rounds R] [--workers W] [--plan] [--traps]`.
#[derive(Clone, Copy, Debug)]
pub struct CheckWords<'a> {
    /// This is the question.
    pub asked: AskedWords<'a>,
    /// At most this many rounds are made.
    pub rounds: u32,
    /// A round has at most this many workers.
    pub workers: u32,
    /// The certificate is to be written if this is true.
    pub plan: bool,
    /// The upper table is to be lowered to the best exits of traps if this is true.
    pub traps: bool,
}

/// These are the words of `audit`: `TRA LAB FORMULA CERT [--own FILE]`.
#[derive(Clone, Copy, Debug)]
pub struct AuditWords<'a> {
    /// This is the question.
    pub asked: AskedWords<'a>,
    /// This is the name of the file of the certificate.
    pub certificate: &'a str,
}

/// These are the words of `solve`: `TRA LAB FORMULA [--own FILE] [--values FILE] [--plan]`.
#[derive(Clone, Copy, Debug)]
pub struct SolveWords<'a> {
    /// This is the question.
    pub asked: AskedWords<'a>,
    /// This is the name of the file of values to begin with, if one is given.
    pub values: Option<&'a str>,
    /// The certificate is to be written if this is true.
    pub plan: bool,
}

/// These are the words of `make`: `SEED STATES [--rounds R] [--workers W]`.
#[derive(Clone, Copy, Debug)]
pub struct MakeWords {
    /// The seed of the game is from 1 to 2147483646.
    pub seed: u32,
    /// The game is to have this many states, from 3 to 1,000,000.
    pub states: u32,
    /// At most this many rounds are made.
    pub rounds: u32,
    /// A round has at most this many workers.
    pub workers: u32,
}

/// These are the words of one of the five commands.
#[derive(Clone, Copy, Debug)]
pub enum CommandWords<'a> {
    /// These are the words of `check`.
    Check(CheckWords<'a>),
    /// These are the words of `audit`.
    Audit(AuditWords<'a>),
    /// These are the words of `solve`.
    Solve(SolveWords<'a>),
    /// These are the words of `make`.
    Make(MakeWords),
    /// These are the words of `sure`.
    Sure(AskedWords<'a>),
}

/// Returns the command that the words denote, or none if they denote no command. The only error is that memory ran out.
pub fn read_words(alloc: Global, words: &[String]) -> Result<Option<CommandWords<'_>>, OutOfMemory>
    ensures { IfOk result (λ read. MatchOption read (AreNoCommand (map string_bytes words.now))
        (λ command. AreCommand (map string_bytes words.now) (command_of command))) }
{
    match words {
        [name, rest @ ..] => read_command(alloc, name.as_str(), rest),
        [] => Ok(None),
    }
}

// Returns the command of this name that the words after it denote, or none.
fn read_command<'a>(
    alloc: Global,
    name: &str,
    words: &'a [String],
) -> Result<Option<CommandWords<'a>>, OutOfMemory>
    ensures { IfOk result (λ read. MatchOption read (AreNoCommand (name.now ∷ map string_bytes words.entry.now))
        (λ command. AreCommand (name.now ∷ map string_bytes words.entry.now) (command_of command))) }
{
    match name {
        "check" => Ok(read_check(alloc, words)?.map(CommandWords::Check)),
        "audit" => Ok(read_audit(alloc, words)?.map(CommandWords::Audit)),
        "solve" => Ok(read_solve(alloc, words)?.map(CommandWords::Solve)),
        // What `make` gives borrows nothing, and a proof over `map` does not cover this case.
        "make" => match read_make(alloc, words)? {
            Some(make) => Ok(Some(CommandWords::Make(make))),
            None => Ok(None),
        },
        "sure" => Ok(read_sure(alloc, words)?.map(CommandWords::Sure)),
        _ => Ok(None),
    }
}

// Returns what the words after `check` say, or none if they denote no command.
fn read_check(alloc: Global, words: &[String]) -> Result<Option<CheckWords<'_>>, OutOfMemory>
    ensures { IfOk result (λ read. MatchOption read ((check : Check) → AreCheckWords (map string_bytes words.now) check
        → ⊥) (λ check. AreCheckWords (map string_bytes words.now) (check_of check))) }
{
    match taken(check_command(alloc)?, words)? {
        Some(matches) => Ok(check_words(&matches)),
        None => Ok(None),
    }
}

// Returns what the words after `audit` say, or none if they denote no command.
fn read_audit(alloc: Global, words: &[String]) -> Result<Option<AuditWords<'_>>, OutOfMemory>
    ensures { IfOk result (λ read. MatchOption read ((audit : Audit) → AreAuditWords (map string_bytes words.now) audit
        → ⊥) (λ audit. AreAuditWords (map string_bytes words.now) (audit_of audit))) }
{
    match taken(audit_command(alloc)?, words)? {
        Some(matches) => Ok(audit_words(&matches)),
        None => Ok(None),
    }
}

// Returns what the words after `solve` say, or none if they denote no command.
fn read_solve(alloc: Global, words: &[String]) -> Result<Option<SolveWords<'_>>, OutOfMemory>
    ensures { IfOk result (λ read. MatchOption read ((solve : Solve) → AreSolveWords (map string_bytes words.now) solve
        → ⊥) (λ solve. AreSolveWords (map string_bytes words.now) (solve_of solve))) }
{
    match taken(solve_command(alloc)?, words)? {
        Some(matches) => Ok(solve_words(&matches)),
        None => Ok(None),
    }
}

// Returns what the words after `sure` say, or none if they denote no command.
fn read_sure(alloc: Global, words: &[String]) -> Result<Option<AskedWords<'_>>, OutOfMemory>
    ensures { IfOk result (λ read. MatchOption read ((asked : Asked) → AreSureWords (map string_bytes words.now) asked
        → ⊥) (λ asked. AreSureWords (map string_bytes words.now) (asked_of_words asked))) }
{
    match taken(sure_command(alloc)?, words)? {
        Some(matches) => Ok(asked_words(&matches)),
        None => Ok(None),
    }
}

// Returns what the words after `make` say, or none if they denote no command.
fn read_make(alloc: Global, words: &[String]) -> Result<Option<MakeWords>, OutOfMemory>
    ensures { IfOk result (λ read. MatchOption read ((make : Make) → AreMakeWords (map string_bytes words.now) make → ⊥)
        (λ make. AreMakeWords (map string_bytes words.now) (make_of make))) }
{
    match taken(make_command(alloc)?, words)? {
        Some(matches) => Ok(make_words(&matches)),
        None => Ok(None),
    }
}

/// Returns what the command finds in the words, or none if it does not take them.
pub fn taken<'a>(
    command: Command<'a>,
    words: &'a [String],
) -> Result<Option<ArgMatches<'a>>, OutOfMemory>
    requires { is_simple_and_free (app_of command) ≡ true }
    ensures { IfOk result (λ found. MatchOption found (fault_of (app_of command.entry)
        (map string_bytes words.entry.now) ≡ [] → ⊥) (FindsIn command.entry (map string_bytes words.entry.now))) }
{
    match command.try_get_matches_from(words) {
        Ok(matches) => Ok(Some(matches)),
        Err(error) => match error.kind() {
            ErrorKind::OutOfMemory => Err(OutOfMemory {}),
            _ => Ok(None),
        },
    }
}
