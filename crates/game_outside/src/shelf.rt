//! This module has a place with named texts, which are read from front to end.

ghost use Rattle.std.specs.Prelude.{◌≡◌, ◌<◌, ℕ, Bool, true, List, length, OnOk, OnErr, IsOk, Option};
ghost use Rattle.std.specs.Io.{ReadsAtMost};
ghost use Rattle.std.specs.Io.KnownBytes.{ReadConsumes};
ghost use Rattle.game_outside.specs.Outside.{Holding, HasCause, Holds, Begins, IsEmptyRest, taken_after};

use crate::Failed;

/// A shelf is a place with named texts. One text at a time is begun and read from front to end.
///
/// An object tells as much as it likes of the texts that it holds. It always tells how many bytes were taken, how often
/// a call failed, and whether its calls for what is held never fail.
pub trait Shelf {
    /// These bytes are held under each name, if they are told.
    ghost held: { Self → Option Holding };

    /// These bytes of the text that was begun are still to come, if they are told.
    ghost rest: { Self → Option (List ℕ) };

    /// This counts the bytes that `next` has given since the last `begin`, up to the greatest `u64`.
    ghost taken: { Self → ℕ };

    /// This counts the calls that failed, and never falls. It stops at the greatest `u64`.
    ghost faults: { Self → ℕ };

    /// If this is true, its calls for what is held never fail.
    ghost steady: { Self → Bool };

    /// Begins the text under this name. It fails at a name that is not held; after a failure no text is begun.
    fn begin(&mut self, name: &str) -> Result<(), Failed>
        ensures text { OnOk result (Begins (held self.old) name.now (rest self.new)) }
        ensures taken { taken self.new ≡ 0 }
        ensures failed { OnErr result (IsEmptyRest (rest self.new)) }
        ensures cause { HasCause (faults self.old) (faults self.new) result }
        ensures held { held self.new ≡ held self.old }
        ensures steady { steady self.new ≡ steady self.old }
        ensures steadily { steady self.old ≡ true → Holds (held self.old) name.now
            → IsOk result × (faults self.new ≡ faults self.old) };

    /// Puts the next bytes of the text into the piece, and answers their number. Zero says that the text is at its end,
    /// or that none was begun.
    fn next(&mut self, piece: &mut [u8]) -> Result<usize, Failed>
        requires { 0 < length piece.old }
        ensures bound { ReadsAtMost result piece.new }
        ensures bytes { ReadConsumes (rest self.old) (rest self.new) result piece.new }
        ensures taken { taken self.new ≡ taken_after (taken self.old) result }
        ensures cause { HasCause (faults self.old) (faults self.new) result }
        ensures held { held self.new ≡ held self.old }
        ensures steady { steady self.new ≡ steady self.old }
        ensures steadily { steady self.old ≡ true → IsOk result × (faults self.new ≡ faults self.old) };
}

/// This says why a text was not read whole.
#[derive(Clone, Copy, Debug, PartialEq, Eq, Drop)]
pub enum ReadEnd {
    /// Memory ran out.
    OutOfMemory,
    /// A call of the shelf failed.
    ReadFault,
    /// The text is longer than the limit.
    TooLong,
}

/// `read_all` and a `LineText` take at most this many bytes in one call.
pub const PIECE: usize = 4096;
