//! This module says what is wrong with words that denote no command.

ghost use Rattle.std.specs.Prelude.{◌≡◌, IfOk, MatchOption, map};
ghost use Rattle.std.specs.String.{string_bytes};
ghost use Rattle.command_words.specs.Words.{AreNoCommand, DenoteCommand};

use crate::grammar::{
    audit_command, check_with_any_numbers, make_with_any_numbers, solve_command, sure_command,
};
use crate::limits::{LEAST_STATES, MOST_ROUNDS, MOST_SEED, MOST_STATES, MOST_WORKERS};
use crate::words::read_words;
use clap::error::ErrorKind;
use clap::{ArgMatches, Command};
use game_outside::OutOfMemory;
use std::alloc::Global;

// A number of a command has the name of its value, the text that tells it, its least value and its greatest value.
type Number = (&'static str, &'static str, i64, i64);

const NUMBERS: &[Number] = &[
    ("seed", "SEED", 1, MOST_SEED),
    ("states", "STATES", LEAST_STATES, MOST_STATES),
    ("rounds", "--rounds", 0, MOST_ROUNDS),
    ("workers", "--workers", 1, MOST_WORKERS),
];

/// Says what is wrong with words, exactly if they denote no command: the first line that `clap` has for it, or the word
/// that is refused beyond its grammar. No clause says which text this is.
pub fn refused_words(alloc: Global, words: &[String]) -> Result<Option<String>, OutOfMemory>
    ensures { IfOk result (λ told. MatchOption told (DenoteCommand (map string_bytes words.now))
        (λ message. AreNoCommand (map string_bytes words.now))) }
{
    match read_words(alloc, words)? {
        Some(_) => Ok(None),
        None => Ok(Some(fault_in(alloc, words)?)),
    }
}

fn fault_in(alloc: Global, words: &[String]) -> Result<String, OutOfMemory> {
    match words {
        [] => Ok(String::from_str(alloc, "there is no command")?),
        [name, rest @ ..] => fault_behind(alloc, name.as_str(), rest),
    }
}

// Says what is wrong with the words after a name, or with the name.
fn fault_behind(alloc: Global, name: &str, words: &[String]) -> Result<String, OutOfMemory> {
    match name {
        "check" => fault_found(alloc, check_with_any_numbers(alloc)?, words),
        "audit" => fault_found(alloc, audit_command(alloc)?, words),
        "solve" => fault_found(alloc, solve_command(alloc)?, words),
        "make" => fault_found(alloc, make_with_any_numbers(alloc)?, words),
        "sure" => fault_found(alloc, sure_command(alloc)?, words),
        _ => Ok(format!(in alloc; "{name} is no command")?),
    }
}

/// Says what `clap` finds wrong, or what is wrong with the values that it finds. No clause says which text this is.
pub fn fault_found<'a>(
    alloc: Global,
    command: Command<'a>,
    words: &'a [String],
) -> Result<String, OutOfMemory> {
    match command.try_get_matches_from(words) {
        Ok(matches) => fault_of_values(alloc, &matches),
        Err(error) => match error.kind() {
            ErrorKind::OutOfMemory => Err(OutOfMemory {}),
            _ => {
                let text = format!(in alloc; "{error}")?;
                Ok(String::from_str(alloc, first_line(text.as_str()))?)
            }
        },
    }
}

// Returns the first line of an error, without the word that all errors begin with.
fn first_line(text: &str) -> &str {
    let told = text.strip_prefix("error: ").unwrap_or(text);
    match told.split_once('\n') {
        Some((line, _)) => line,
        None => told,
    }
}

// Names the first number that is out of its range, or else says that a file has no name: nothing else can be wrong.
fn fault_of_values(alloc: Global, matches: &ArgMatches<'_>) -> Result<String, OutOfMemory> {
    for (name, told, least, most) in NUMBERS {
        if let Some(word) = matches.get_str(name) {
            if !is_within(word, *least, *most) {
                return Ok(format!(in alloc; "{told} {word} is no number from {least} to {most}")?);
            }
        }
    }
    Ok(String::from_str(alloc, "a file name is empty")?)
}

fn is_within(word: &str, least: i64, most: i64) -> bool {
    match word.parse::<u32>() {
        Ok(number) => least <= i64::from(number) && i64::from(number) <= most,
        Err(_) => false,
    }
}
