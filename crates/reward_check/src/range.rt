//! The choices that may be taken at a state are a range.

/// The range has the choices from `from` up to `to`, without `to`.
#[derive(Clone, Copy)]
pub struct ChoiceRange {
    pub from: u32,
    pub to: u32,
}
