//! This module says what the values that were found in words say.

ghost use Rattle.std.specs.Prelude.{◌≡◌, ◌≤◌, ◌^◌, ◌↔◌, ℕ, List, Some, IsTrue, MatchOption, codes, option_map};
ghost use Rattle.command_words.specs.Grammar.{value_in};
ghost use Rattle.command_words.specs.Words.{Asked, Check, Audit, Solve, Make, IsNamedWhereGiven, IsNumber, NamesFile, GivesNumber, AreRunLimits, AreInRange, IsMakeInRange, SayAsked, SayRunLimits, SayCheck, SayAudit, SaySolve, SayMake, asked_of_words, check_of, audit_of, solve_of, make_of};

use crate::limits::{DEFAULT_ROUNDS, DEFAULT_WORKERS};
use crate::words::{AskedWords, AuditWords, CheckWords, MakeWords, SolveWords};
use clap::ArgMatches;

// This is how far a run goes.
#[derive(Clone, Copy)]
struct RunLimits {
    rounds: u32,
    workers: u32,
}

/// Returns what the values say of `check`, or none if they say no command.
pub fn check_words<'a>(matches: &ArgMatches<'a>) -> Option<CheckWords<'a>>
    ensures { MatchOption result ((check : Check) → SayCheck (value_in matches.now) check → AreInRange check → ⊥)
        (λ check. SayCheck (value_in matches.now) (check_of check)) }
{
    let limits = run_limits(matches)?;
    Some(CheckWords {
        asked: asked_words(matches)?,
        rounds: limits.rounds,
        workers: limits.workers,
        plan: is_given(matches.get_str("plan")),
        traps: is_given(matches.get_str("traps")),
    })
}

/// Returns what the values say of `audit`, or none if they say no command.
pub fn audit_words<'a>(matches: &ArgMatches<'a>) -> Option<AuditWords<'a>>
    ensures { MatchOption result ((audit : Audit) → SayAudit (value_in matches.now) audit → ⊥)
        (λ audit. SayAudit (value_in matches.now) (audit_of audit)) }
{
    Some(AuditWords {
        asked: asked_words(matches)?,
        certificate: file_word(matches.get_str("certificate"))?,
    })
}

/// Returns what the values say of `solve`, or none if they say no command.
pub fn solve_words<'a>(matches: &ArgMatches<'a>) -> Option<SolveWords<'a>>
    ensures { MatchOption result ((solve : Solve) → SaySolve (value_in matches.now) solve → ⊥)
        (λ solve. SaySolve (value_in matches.now) (solve_of solve)) }
{
    let values = matches.get_str("values");
    if !is_named_where_given(values) {
        return None;
    }
    Some(SolveWords {
        asked: asked_words(matches)?,
        values,
        plan: is_given(matches.get_str("plan")),
    })
}

/// Returns what the values say of `make`, or none if they say no command.
pub fn make_words<'a>(matches: &ArgMatches<'a>) -> Option<MakeWords>
    ensures { MatchOption result ((make : Make) → SayMake (value_in matches.now) make → IsMakeInRange make → ⊥)
        (λ make. SayMake (value_in matches.now) (make_of make)) }
{
    let limits = run_limits(matches)?;
    Some(MakeWords {
        seed: given_number(matches.get_str("seed"))?,
        states: given_number(matches.get_str("states"))?,
        rounds: limits.rounds,
        workers: limits.workers,
    })
}

/// Returns what the values ask, or none if they ask nothing.
pub fn asked_words<'a>(matches: &ArgMatches<'a>) -> Option<AskedWords<'a>>
    ensures { MatchOption result ((asked : Asked) → SayAsked (value_in matches.now) asked → ⊥)
        (λ asked. SayAsked (value_in matches.now) (asked_of_words asked)) }
{
    let own = matches.get_str("own");
    if !is_named_where_given(own) {
        return None;
    }
    Some(AskedWords {
        tra: file_word(matches.get_str("tra"))?,
        lab: file_word(matches.get_str("lab"))?,
        formula: matches.get_str("formula")?,
        own,
    })
}

// Returns how far a run goes by what the values say, or none if they say no such limits.
fn run_limits<'a>(matches: &ArgMatches<'a>) -> Option<RunLimits>
    ensures { MatchOption result ((rounds workers : ℕ) → SayRunLimits (value_in matches.now) rounds workers
        → AreRunLimits rounds workers → ⊥)
        (λ limits. SayRunLimits (value_in matches.now) limits.rounds limits.workers) }
{
    Some(RunLimits {
        rounds: read_number(matches.get_str("rounds"), DEFAULT_ROUNDS)?,
        workers: read_number(matches.get_str("workers"), DEFAULT_WORKERS)?,
    })
}

/// Returns the word of a file, if it is not empty.
pub fn file_word(word: Option<&str>) -> Option<&str>
    ensures { MatchOption result ((file : List ℕ) → NamesFile (option_map (λ w. w.now) word.entry) file → ⊥)
        (λ file. NamesFile (option_map (λ w. w.now) word.entry) file.now) }
{
    match word {
        Some(file) if !file.is_empty() => Some(file),
        _ => None,
    }
}

// Returns whether a file has a name, if it is given.
fn is_named_where_given(word: Option<&str>) -> bool
    ensures { IsTrue result ↔ IsNamedWhereGiven (option_map (λ w. w.now) word.entry) }
{
    match word {
        Some(file) => !file.is_empty(),
        None => true,
    }
}

/// Returns whether a flag is given, by its value.
pub fn is_given(value: Option<&str>) -> bool
    ensures { IsTrue result ↔ (option_map (λ w. w.now) value.entry ≡ Some (codes "true")) }
{
    match value {
        Some(value) => value == "true",
        None => false,
    }
}

// Returns the number that the word of an option spells, or the default if the word is not given. It returns none if the
// word is no number of 32 bits.
fn read_number(word: Option<&str>, default: u32) -> Option<u32>
    ensures { MatchOption result ((n : ℕ) → IsNumber default (option_map (λ w. w.now) word.entry) n → 2 ^ 32 ≤ n)
        (λ n. IsNumber default (option_map (λ w. w.now) word.entry) n) }
{
    match word {
        None => Some(default),
        Some(word) => word.parse::<u32>().ok(),
    }
}

// Returns the number that a word spells. It returns none if there is no word, or if the word is no number of 32 bits.
fn given_number(word: Option<&str>) -> Option<u32>
    ensures { MatchOption result ((n : ℕ) → GivesNumber (option_map (λ w. w.now) word.entry) n → 2 ^ 32 ≤ n)
        (λ n. GivesNumber (option_map (λ w. w.now) word.entry) n) }
{
    word?.parse::<u32>().ok()
}
