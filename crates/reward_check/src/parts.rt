//! A check has parts that look at choices.

/// A check has these parts, in this order.
#[derive(Clone, Copy)]
pub enum Part {
    /// The upper values are held by the replies.
    Upper,
    /// The ranks show that plays under the replies end.
    Ranks,
    /// The lower values are paid under the choices.
    Lower,
    /// The ranks show that plays under the choices miss the goals, from the states of infinite lower value.
    Infinite,
}
