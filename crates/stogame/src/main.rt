//! This is the program: it hands the words, the files and the standard output of the system to `run`.
//!
//! If the words are no command, or if a run writes nothing or not all of its output, one line on standard error says
//! why. Nothing else ever goes there.
#![tactic(auto)]

use command_words::refused_words;
use game_outside::{OpenGate, OutOfMemory};
use reward_app::{Status, run};
use reward_words::refused_reward_words;
use std::alloc::Global;
use std::process::ExitCode;
use std::rt::Files;
use std::{env, io};
use system_files::{Failure, FileShelf, OneLine, OutSink};

/// The program ends with this status if the system hands over no words.
const NO_WORDS: u8 = 9;

fn main(rt: HostRuntime) -> ExitCode {
    let alloc = rt.alloc();
    let arguments = match env::args(&rt) {
        Ok(arguments) => arguments,
        Err(error) => return ExitCode::from(end_without_words(&rt, &error)),
    };
    let Ok(words) = arguments.skip(1).collect::<Vec<String>>(alloc) else {
        return ExitCode::from(end_out_of_memory(&rt));
    };
    let Ok(refused) = refused(alloc, &words) else {
        return ExitCode::from(end_out_of_memory(&rt));
    };
    let mut shelf = FileShelf::new(&rt, alloc);
    let mut out = OutSink::new(io::writer(&rt));
    let status = run(&rt, alloc, &words, &mut shelf, &mut out, &OpenGate {});
    match status {
        Status::Usage => say_refused(&rt, &refused),
        Status::ReadFault => say_unread(&rt, &shelf),
        Status::WriteFault => say_unwritten(&rt, out.failure()),
        Status::OutOfMemory => say_out_of_memory(&rt),
        _ => {}
    }
    ExitCode::from(status.number())
}

// Says what is wrong with words that are no command: as words with rewards if a file of rewards is asked for.
fn refused(alloc: Global, words: &[String]) -> Result<Option<String>, OutOfMemory> {
    let are_of_rewards = words.iter().any(|word| word.starts_with("--rewards"));
    if are_of_rewards {
        refused_reward_words(alloc, words)
    } else {
        refused_words(alloc, words)
    }
}

// Ends a run whose words the system did not hand over.
fn end_without_words(rt: &impl Eprint, error: &io::Error) -> u8 {
    if error.kind() == io::ErrorKind::OutOfMemory {
        return end_out_of_memory(rt);
    }
    let reason = Failure::of(error);
    let _ = eprintln!(rt; "stogame: cannot read the words of the command line: {reason}");
    NO_WORDS
}

fn end_out_of_memory(rt: &impl Eprint) -> u8 {
    say_out_of_memory(rt);
    Status::OutOfMemory.number()
}

fn say_out_of_memory(rt: &impl Eprint) {
    let _ = eprintln!(rt; "stogame: out of memory");
}

// Says what is wrong with words that are no command, and which commands there are.
fn say_refused(rt: &impl Eprint, refused: &Option<String>) {
    if let Some(message) = refused {
        let line = OneLine(message.as_str());
        let _ = eprintln!(rt; "stogame: {line}; commands: check, audit, solve, make, sure");
    }
}

// Says which file was not read, and why.
fn say_unread(rt: &impl Eprint, shelf: &FileShelf<impl Files>) {
    let name = OneLine(shelf.name().unwrap_or("a file"));
    let _ = match shelf.failure() {
        Some(reason) => eprintln!(rt; "stogame: cannot read {name}: {reason}"),
        None => eprintln!(rt; "stogame: cannot read {name}"),
    };
}

// Says why the output was not written.
fn say_unwritten(rt: &impl Eprint, failure: Option<Failure>) {
    let _ = match failure {
        Some(reason) => eprintln!(rt; "stogame: cannot write the output: {reason}"),
        None => eprintln!(rt; "stogame: cannot write the output"),
    };
}
