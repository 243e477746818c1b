//! This module offers real files as a shelf.

ghost use Rattle.std.specs.Prelude.{◌≡◌, None, false, option_map};
ghost use Rattle.std.specs.String.{string_bytes};

use crate::failure::Failure;
use game_outside::{Failed, Shelf};
use std::alloc::Global;
use std::fs::{self, File};
use std::io::Read;
use std::rt::Files;

/// The shelf holds files under their paths. Of their contents it tells only the number of bytes taken.
#[derive(Drop)]
pub struct FileShelf<'a, R: Files> {
    rt: &'a R,
    alloc: Global,
    file: Option<R::File>,
    taken: u64,
    faults: u64,
    name: Option<String>,
    failure: Option<Failure>,
}

impl<'a, R: Files> FileShelf<'a, R> {
    /// Makes a shelf on which no file is begun.
    pub fn new(rt: &'a R, alloc: Global) -> Self
        ensures name { result.name ≡ None }
        ensures failure { result.failure ≡ None }
        ensures taken { result.taken ≡ 0 }
        ensures faults { result.faults ≡ 0 }
    {
        FileShelf {
            rt,
            alloc,
            file: None,
            taken: 0,
            faults: 0,
            name: None,
            failure: None,
        }
    }

    /// Returns the name of the file that was begun last, unless memory ran out for it.
    pub fn name(&self) -> Option<&str>
        ensures { option_map (λ name. name.now) result ≡ option_map string_bytes self.now.name }
    {
        match &self.name {
            Some(name) => Some(name.as_str()),
            None => None,
        }
    }

    /// Says why the last call that failed did so.
    pub fn failure(&self) -> Option<Failure>
        ensures { result ≡ self.now.failure }
    {
        self.failure
    }
}

// Opens the file of this name. A file that was read just before has to be regular, because the text of another one,
// such as a pipe, may be gone.
fn open<R: Files>(rt: &R, name: &str, again: bool) -> Result<R::File, Failure> {
    if again && !is_regular(rt, name) {
        return Err(Failure::read_twice());
    }
    match File::open(rt, name) {
        Ok(file) => Ok(file),
        Err(error) => Err(Failure::of(&error)),
    }
}

// Returns whether a name is that of a regular file, as far as the system tells.
fn is_regular(rt: &impl Files, name: &str) -> bool {
    match fs::metadata(rt, name) {
        Ok(metadata) => metadata.is_file(),
        Err(_) => false,
    }
}

impl<'a, R: Files> Shelf for FileShelf<'a, R> {
    ghost held = { λ s. None };

    ghost rest = { λ s. None };

    ghost taken = { λ s. s.taken };

    ghost faults = { λ s. s.faults };

    ghost steady = { λ s. false };

    fn begin(&mut self, name: &str) -> Result<(), Failed> {
        let again = self.name() == Some(name);
        self.taken = 0;
        self.file = None;
        self.name = String::from_str(self.alloc, name).ok();
        match open(self.rt, name, again) {
            Ok(file) => {
                self.file = Some(file);
                Ok(())
            }
            Err(failure) => {
                self.failure = Some(failure);
                self.faults = self.faults.saturating_add(1);
                Err(Failed {})
            }
        }
    }

    fn next(&mut self, piece: &mut [u8]) -> Result<usize, Failed> {
        let _taken = self.taken;
        let file = match &mut self.file {
            Some(file) => file,
            None => return Ok(0),
        };
        match file.read(piece) {
            Ok(count) => {
                self.taken = self.taken.saturating_add(count as u64);
                Ok(count)
            }
            Err(error) => {
                self.failure = Some(Failure::of(&error));
                self.faults = self.faults.saturating_add(1);
                Err(Failed {})
            }
        }
    }
}
