//! A run begins the names of the texts that the words name, in their order, and no other name.

ghost use Rattle.std.specs.Prelude.{None, false};

use crate::outside::commands::commands;
use game_outside::{Failed, OpenGate, Shelf, SteadyShelf};
use sample_games::expectations::same;
use std::alloc::Global;
use std::test::Fail;
use std::thread::Threads;
use worked_rows::{Case, ends};

// The shelf notes each name that it begins, with a space after it.
#[derive(Drop)]
struct NotingShelf {
    shelf: SteadyShelf,
    names: String,
    taken: u64,
    faults: u64,
}

impl Shelf for NotingShelf {
    ghost held = { λ s. None };

    ghost rest = { λ s. None };

    ghost taken = { λ s. s.taken };

    ghost faults = { λ s. s.faults };

    ghost steady = { λ s. false };

    fn begin(&mut self, name: &str) -> Result<(), Failed> {
        self.taken = 0;
        let noted = self.names.push_str(name).is_ok() && self.names.push_str(" ").is_ok();
        if noted && self.shelf.begin(name).is_ok() {
            return Ok(());
        }
        self.faults = self.faults.saturating_add(1);
        Err(Failed {})
    }

    fn next(&mut self, piece: &mut [u8]) -> Result<usize, Failed> {
        let _taken = self.taken;
        match self.shelf.next(piece) {
            Ok(count) => {
                self.taken = self.taken.saturating_add(count as u64);
                Ok(count)
            }
            Err(_) => {
                self.faults = self.faults.saturating_add(1);
                Err(Failed {})
            }
        }
    }
}

// The run of a case begins these names, and ends as it should.
fn begins<R: Threads + Sync>(
    rt: &R,
    alloc: Global,
    case: &Case<'_>,
    names: &str,
) -> Result<(), Fail> {
    let words = case.command.words(alloc)?;
    let mut shelf = NotingShelf {
        shelf: SteadyShelf::new(case.command.files(alloc)?),
        names: String::new(alloc),
        taken: 0,
        faults: 0,
    };
    let (ended, _) = ends(rt, alloc, &words, &mut shelf, &OpenGate {})?;
    same(
        case.text,
        (ended, shelf.names.as_str()),
        (case.status, names),
    )
}

#[test]
fn only_the_named_texts_are_begun(rt: HostRuntime) -> Result<(), Fail> {
    for (case, names) in commands() {
        begins(&rt, rt.alloc(), case, names)?;
    }
    Ok(())
}
