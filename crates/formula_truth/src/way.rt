//! This module has the ways in which questions without a bound on the steps are answered.

/// Such a question is answered in one of these ways at all states.
#[derive(Clone, Copy, Debug, PartialEq, Eq)]
pub enum Way {
    /// At most this many rounds of value iteration answer it.
    ByRounds(u32),
    /// A plan of a solver that passes the checks of an audit answers it.
    BySolver,
}
