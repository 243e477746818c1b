//! This module has the answer to a formula.

use verdicts::How;

/// An answer has the bounds of a formula, in units for each state, and says what was left open inside.
#[derive(Drop)]
pub struct Nested {
    /// These are the initial states, in rising order.
    pub initial: Vec<u32>,
    /// The lower bounds are those of the question that the sure states of both sides pose. For `G` they are 1 less the
    /// upper ones of the dual.
    pub lower: Vec<u64>,
    /// The upper bounds are those of the question that the possible states of both sides pose. For `G` they are 1 less
    /// the lower ones of the dual.
    pub upper: Vec<u64>,
    /// The lower bounds come from this many rounds or steps, or from a solver. For `G` the lower bounds of the dual do.
    pub how: How,
    /// This is the number of formulas inside, at any depth.
    pub inner: u32,
    /// This is the number of pairs of a formula inside and a state that are left undecided.
    pub undecided: u32,
}
