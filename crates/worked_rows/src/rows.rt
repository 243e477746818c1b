//! This module runs rows, which are files in memory and words, and returns what is written.

use crate::asked::check_words;
use game_outside::{Gate, HeldFile, Name, Shelf, SteadyShelf, SteadySink};
use std::alloc::Global;
use std::test::Fail;
use std::thread::Threads;
use stogame_app::{Status, run};

/// A row has a model in files, a formula, and the words of its numbers.
#[derive(Clone, Copy)]
pub struct Row<'a> {
    pub tra: &'a str,
    pub lab: &'a str,
    pub own: Option<&'a str>,
    pub formula: &'a str,
    pub numbers: &'a [&'a str],
}

impl<'a> Row<'a> {
    /// Returns the same row with another formula.
    pub fn asked(self, formula: &'a str) -> Row<'a> {
        Row { formula, ..self }
    }

    /// Returns the same row with other numbers.
    pub fn with_numbers(self, numbers: &'a [&'a str]) -> Row<'a> {
        Row { numbers, ..self }
    }
}

/// With one worker the number of rounds is the same at each run.
pub const ONE_WORKER: &[&str] = &["--workers", "1"];

/// Makes a file of this name.
pub fn file(alloc: Global, name: &str, text: &str) -> Result<HeldFile, Fail> {
    file_of_bytes(alloc, name, text.as_bytes())
}

/// Makes a file of this name with these bytes.
pub fn file_of_bytes(alloc: Global, name: &str, bytes: &[u8]) -> Result<HeldFile, Fail> {
    let Ok(name) = Name::from_bytes(alloc, name.as_bytes()) else {
        return Err(Fail::new("no memory"));
    };
    Ok(HeldFile {
        name,
        bytes: bytes.to_vec(alloc)?,
    })
}

/// Makes the files of a row.
pub fn files(alloc: Global, row: Row<'_>) -> Result<Vec<HeldFile>, Fail> {
    let mut files = Vec::new(alloc);
    files.push(file(alloc, "m.tra", row.tra)?)?;
    files.push(file(alloc, "m.lab", row.lab)?)?;
    if let Some(own) = row.own {
        files.push(file(alloc, "m.own", own)?)?;
    }
    Ok(files)
}

/// Adds the same part to a text this many times.
pub fn push_times(text: &mut String, part: &str, times: u32) -> Result<(), Fail> {
    for _ in 0..times {
        text.push_str(part)?;
    }
    Ok(())
}

/// Makes owned copies of these words.
pub fn words(alloc: Global, words: &[&str]) -> Result<Vec<String>, Fail> {
    let mut owned = Vec::new(alloc);
    add_words(alloc, &mut owned, words)?;
    Ok(owned)
}

/// Adds these words.
pub fn add_words(alloc: Global, owned: &mut Vec<String>, words: &[&str]) -> Result<(), Fail> {
    for word in words {
        owned.push(String::from_str(alloc, word)?)?;
    }
    Ok(())
}

/// Runs a row over a shelf and a sink that never fail, and says how it ends and what it writes.
pub fn runs<R: Threads + Sync, G: Gate + Sync>(
    rt: &R,
    alloc: Global,
    row: Row<'_>,
    gate: &G,
) -> Result<(Status, Vec<u8>), Fail> {
    let words = check_words(alloc, row)?;
    let mut shelf = SteadyShelf::new(files(alloc, row)?);
    ends(rt, alloc, &words, &mut shelf, gate)
}

/// Runs these words over a shelf and a sink that never fails, and says how the run ends and what it writes.
pub fn ends<R: Threads + Sync, H: Shelf, G: Gate + Sync>(
    rt: &R,
    alloc: Global,
    words: &[String],
    shelf: &mut H,
    gate: &G,
) -> Result<(Status, Vec<u8>), Fail> {
    let mut out = SteadySink::new(alloc);
    if out.reserve(1000).is_err() {
        return Err(Fail::new("no memory"));
    }
    let ended = run(rt, alloc, words, shelf, &mut out, gate);
    match out.bytes() {
        Some(written) => Ok((ended, written.to_vec(alloc)?)),
        None => Err(Fail::new("the text is lost")),
    }
}
