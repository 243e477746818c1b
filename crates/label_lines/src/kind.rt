//! This module has the two kinds of files that have one format.

ghost use Rattle.std.specs.Prelude.{◌≡◌, ◌<◌};

/// A header has at most this many labels.
pub const MOST_LABELS: usize = 1_000;

/// A header has at most this many players.
pub const MOST_PLAYERS: usize = 64;

/// This is the greatest index of a header.
pub const GREATEST_INDEX: u64 = 999_999;

/// A name has at most this many bytes.
pub const LONGEST_NAME: usize = 255;

/// The kind of a file says what its indices mean.
#[derive(Clone, Copy, Debug, PartialEq, Eq)]
pub enum FileKind {
    /// The indices mean labels, of which a state may have any number.
    LabelFile,
    /// The indices mean players, of which a state has one.
    OwnerFile,
}

impl FileKind {
    ghost use Rattle.label_lines.specs.Header.{most_items};

    /// Returns the greatest number of items of a header.
    pub(crate) fn most_items(self) -> usize
        ensures { result ≡ most_items self }
    {
        match self {
            FileKind::LabelFile => MOST_LABELS,
            FileKind::OwnerFile => MOST_PLAYERS,
        }
    }
}
