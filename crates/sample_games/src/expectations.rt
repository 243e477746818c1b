//! These are comparisons for tests. Their errors say what was found and what was expected.
//!
//! An assertion ends the process, and each one is proved with its text at the place where it is made. These are proved
//! once. A test hands on their errors with `?`, and with them the words that tell its rows apart.

ghost use Rattle.std.specs.Prelude.{◌≡◌, ◌↔◌, IsOk, IsTrue, true};

use std::fmt::{Debug, Display};
use std::test::Fail;

/// Returns Ok if a test found what it wanted, by `==`, or else what was found and what was wanted.
pub fn same<D: Display + Drop, T: PartialEq + Debug + Drop>(
    what: D,
    found: T,
    wanted: T,
) -> Result<(), Fail>
    ensures { IsOk result ↔ T.eq found wanted ≡ true }
{
    if found == wanted {
        Ok(())
    } else {
        Err(Fail::new(format_args!("{what}: {found:?}, and not {wanted:?}")))
    }
}

/// Returns Ok if a fact holds, or else its words.
pub fn holds<D: Display + Drop>(what: D, fact: bool) -> Result<(), Fail>
    ensures { IsOk result ↔ IsTrue fact }
{
    if fact {
        Ok(())
    } else {
        Err(Fail::new(format_args!("not so: {what}")))
    }
}
