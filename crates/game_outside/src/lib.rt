//! This crate has the outside of the program as traits: a shelf of named texts, a sink of bytes, and a gate for the
//! workers.
//!
//! `read_lines_from` passes the lines of a text on a `Shelf` to a reader, a piece at a time (`LineText`), `read_all`
//! holds a whole text, and `write_all` puts a whole text into a `Sink`. What is promised of them rests on what the
//! object tells: its texts and its bytes if it tells them, and always a count of faults that never falls. A call
//! answers a fault only if this count rose, so a program that reports a fault can't have made it up. For real files
//! nothing of the content is told, and everything else holds.
//!
//! `SteadyShelf` and `SteadySink` hold texts in memory and never fail. `MemShelf` and `MemSink` work in small steps and
//! fail in the calls that are named, so that a test can let each call fail in turn; a `MemShelf` also fails at a name
//! that it doesn't hold. A `HoldGate` holds two workers until both have arrived, and a `LateGate` holds one worker
//! until the others have arrived a given number of times.
//!
//! Nothing is promised of what a real file holds, of how a text is cut into pieces, nor that there is enough memory.
#![tactic(auto)]

mod file;
mod for_tests;
mod gate;
mod held;
pub mod laws;
mod line_text;
mod memory_shelf;
mod memory_sink;
mod name;
mod search;
mod shelf;
mod sink;
mod whole;
mod whole_lines;

pub use file::{FileEnd, read_lines_from};
pub use for_tests::{HoldGate, LateGate};
pub use gate::{Gate, OpenGate};
pub use held::HeldFile;
pub use line_text::LineText;
pub use memory_shelf::{MemShelf, SteadyShelf};
pub use memory_sink::{MemSink, Received, SteadySink};
pub use name::Name;
pub use shelf::{ReadEnd, Shelf};
pub use sink::{Sink, WriteFault, write_all};
use std::alloc::{AllocError, AllocFailed};
pub use whole::read_all;

/// A call of the outside failed.
#[derive(Clone, Copy, Debug, PartialEq, Eq, Drop)]
pub struct Failed {}

/// Memory ran out.
#[derive(Clone, Copy, Debug, PartialEq, Eq, Drop)]
pub struct OutOfMemory {}

impl From<AllocError> for OutOfMemory {
    ghost from_gives = { λ _ _. Unit {0} };

    fn from(_: AllocError) -> Self {
        OutOfMemory {}
    }
}

impl<T: Drop> From<AllocFailed<T>> for OutOfMemory {
    ghost from_gives = { λ _ _. Unit {0} };

    fn from(_: AllocFailed<T>) -> Self {
        OutOfMemory {}
    }
}
