//! A cursor is a place in a text.

ghost use Rattle.std.specs.Prelude.{◌≤◌, ◌+◌, length};
ghost use Rattle.formula_tokens.specs.Limits.{longest};

/// A cursor has what is left of a text from a place on.
#[derive(Clone, Copy)]
pub struct Cursor<'a> {
    pub place: u32,
    pub rest: &'a [u8],
    ghost short: { place + length rest.now ≤ longest },
}
