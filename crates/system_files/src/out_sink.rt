//! This module offers a real writer as a sink.

ghost use Rattle.std.specs.Prelude.{◌≡◌, None};

use crate::failure::Failure;
use game_outside::{Failed, Sink};
use std::io::{ErrorKind, Write};

/// The sink writes to a writer and tells nothing of the bytes.
#[derive(Drop)]
pub struct OutSink<W: Write> {
    writer: W,
    faults: u64,
    failure: Option<Failure>,
}

impl<W: Write> OutSink<W> {
    /// Makes the sink over this writer.
    pub fn new(writer: W) -> Self
        ensures writer { result.writer ≡ writer }
        ensures failure { result.failure ≡ None }
        ensures faults { result.faults ≡ 0 }
    {
        OutSink {
            writer,
            faults: 0,
            failure: None,
        }
    }

    /// Says why the last call that failed did so.
    pub fn failure(&self) -> Option<Failure>
        ensures { result ≡ self.now.failure }
    {
        self.failure
    }
}

impl<W: Write> Sink for OutSink<W> {
    ghost written = { λ s. None };

    ghost faults = { λ s. s.faults };

    fn put(&mut self, piece: &[u8]) -> Result<usize, Failed> {
        match self.writer.write(piece) {
            Ok(count) => {
                if count == 0 && !piece.is_empty() {
                    self.failure = Some(Failure::of_kind(ErrorKind::WriteZero));
                    self.faults = self.faults.saturating_add(1);
                }
                Ok(count)
            }
            Err(error) => {
                self.failure = Some(Failure::of(&error));
                self.faults = self.faults.saturating_add(1);
                Err(Failed {})
            }
        }
    }
}
