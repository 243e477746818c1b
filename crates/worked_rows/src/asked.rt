//! This module makes the words that ask a command the question of a row, and the files that they name.

use crate::rows::{Row, add_words, file, files, words};
use game_outside::HeldFile;
use std::alloc::Global;
use std::test::Fail;

/// The file of the certificate has this name.
pub const CERTIFICATE: &str = "c";

/// The file of values to begin with has this name.
pub const VALUES: &str = "v";

// Adds the words that name the file of owners, if the row has one.
fn add_owners(alloc: Global, owned: &mut Vec<String>, row: Row<'_>) -> Result<(), Fail> {
    match row.own {
        Some(_) => add_words(alloc, owned, &["--own", "m.own"]),
        None => Ok(()),
    }
}

// Makes the words that ask a command the question of a row.
fn question_words(alloc: Global, command: &str, row: Row<'_>) -> Result<Vec<String>, Fail> {
    let mut owned = words(alloc, &[command, "m.tra", "m.lab", row.formula])?;
    add_owners(alloc, &mut owned, row)?;
    Ok(owned)
}

/// Makes the words that check a row.
pub fn check_words(alloc: Global, row: Row<'_>) -> Result<Vec<String>, Fail> {
    let mut owned = question_words(alloc, "check", row)?;
    add_words(alloc, &mut owned, row.numbers)?;
    Ok(owned)
}

/// Makes the words that ask a row for its almost-sure states.
pub fn sure_words(alloc: Global, row: Row<'_>) -> Result<Vec<String>, Fail> {
    question_words(alloc, "sure", row)
}

/// Makes the words that audit a certificate for the model and the formula of a row.
pub fn audit_words(alloc: Global, row: Row<'_>) -> Result<Vec<String>, Fail> {
    let mut owned = words(
        alloc,
        &["audit", "m.tra", "m.lab", row.formula, CERTIFICATE],
    )?;
    add_owners(alloc, &mut owned, row)?;
    Ok(owned)
}

/// Makes the words that solve a row, from a file of values if there is one.
pub fn solve_words(alloc: Global, row: Row<'_>, values: Option<&str>) -> Result<Vec<String>, Fail> {
    let mut owned = question_words(alloc, "solve", row)?;
    if values.is_some() {
        add_words(alloc, &mut owned, &["--values", VALUES])?;
    }
    add_words(alloc, &mut owned, row.numbers)?;
    Ok(owned)
}

/// Makes the files of a row, and one of this name if there is a text for it.
pub fn files_with(
    alloc: Global,
    row: Row<'_>,
    name: &str,
    text: Option<&str>,
) -> Result<Vec<HeldFile>, Fail> {
    let mut held = files(alloc, row)?;
    if let Some(text) = text {
        held.push(file(alloc, name, text)?)?;
    }
    Ok(held)
}
