//! This module says what may happen to a world, and why it may not.

/// An event is a step of one view, or of two. Views are numbered from 0 as they are made.
#[derive(Clone, Copy, Debug, PartialEq, Eq)]
pub enum Event {
    /// The view sees the word of the state.
    Load {
        view: u32,
        state: u32,
    },
    /// The view exchanges the word `from` of the state for `to`.
    Won {
        view: u32,
        state: u32,
        from: u64,
        to: u64,
    },
    /// An exchange of the view is lost: it sees another word than before.
    Lost {
        view: u32,
        state: u32,
    },
    /// A new view has seen what this view has.
    Split {
        view: u32,
    },
    /// The view takes in what the other has seen, and the other is spent.
    Join {
        view: u32,
        other: u32,
    },
}

/// This is why an event is refused. Unless memory ran out, it is the first reason that holds, in this order.
#[derive(Clone, Copy, Debug, PartialEq, Eq)]
pub enum Refused {
    /// Memory ran out.
    OutOfMemory,
    /// A named view is not live.
    NoView,
    /// A view is joined with itself.
    SameView,
    /// There is no such state.
    NoState,
    /// The word of a goal or a dead state never changes.
    FixedState,
    /// The choice is out of range at a state of the maximiser, or not 0 at one of the minimiser.
    BadChoice,
    /// The word is another one.
    NotFrom,
    /// The value is not raised.
    NotRaised,
    /// The value is above what the choice gives over what the view has seen.
    TooHigh,
    /// The word is the one that the view saw.
    SameWord,
}
