//! This module writes names on one line.

use std::fmt::{self, Display, Formatter, Write};

/// A text is written on one line: a control character, such as a line end, is told as Rust spells it.
#[derive(Clone, Copy, Debug)]
pub struct OneLine<'a>(pub &'a str);

impl Display for OneLine<'_> {
    fn fmt<W: fmt::Write>(&self, f: &mut Formatter<W>) -> fmt::Result {
        for c in self.0.chars() {
            if c.is_control() {
                Display::fmt(&c.escape_default(), f)?;
            } else {
                f.write_char(c)?;
            }
        }
        Ok(())
    }
}
