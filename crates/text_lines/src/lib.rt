//! This crate has texts as lines, lines as fields, and fields as whole numbers. Everything is read from front to end
//! over `&[u8]`, with no `str` and no copy.
//!
//! A reader of a format is a [`LineReader`]: it takes the lines that are not blank, one after another, or answers the
//! first fault, and at the end it makes its value. [`read_lines`] feeds it the lines of a text that is held, and
//! [`LineFeeder`] feeds it lines from any source. Its answer about a text does not depend on how the lines come.
//!
//! Within a line, `first_field` cuts the first field off, and `whole` reads a field that must be a number;
//! `first_number` does both in one pass:
//!
//! ```text
//! fn take(&mut self, number: u32, line: &[u8]) -> Result<(), Fault> {
//!     let Some((field, rest)) = first_field(line) else { .. no field is left .. };
//!     let Some(value) = whole(field) else { .. no number .. };
//!     ..
//! }
//! ```
//!
//! A line ends in LF or CRLF, or at the end of the text; after the last ending no line begins. Fields are parted by
//! spaces and tabs. Every other byte belongs to a field, also a CR that is not before an LF, and the bytes from 128 on.
//! A number is one or more of the digits 0 to 9, of any length. `whole` gives the greatest `u64` for every greater
//! number, so a comparison with a smaller limit is a comparison of the exact number.
//!
//! `specs/Text.antt` defines `lines_of`, `fields_of` and `number_of`; the functions of `laws` say what they are,
//! without the recursions.
#![tactic(auto)]

mod fields;
mod front;
pub mod laws;
mod lines;
mod numbers;
mod parts;
mod reader;

pub use fields::first_field;
pub use front::first_number;
pub use lines::{ended_line, first_line, only_blank, without_cr};
pub use numbers::whole;
pub use parts::split_at_first;
pub use reader::{LineFeeder, LineReader, read_lines};

/// A text that is read has at most this many bytes.
pub const MOST_BYTES: usize = 268_435_456;
