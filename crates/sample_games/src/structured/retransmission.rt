// The protocol retransmits a frame a bounded number of times.
use super::Model;
use super::numbered::{Situation, model_from};
use std::alloc::Global;

/// This is the last frame that is sent, counted from 0.
const LAST_FRAME: u32 = 29;

/// A frame is sent again at most this many times.
const RETRIES: u32 = 3;

/// This is what has become of a frame.
#[derive(Clone, Copy, PartialEq)]
enum Phase {
    Sent,
    Arrived,
    Lost,
}

/// This is what the sender does.
#[derive(Clone, Copy, PartialEq)]
enum Sender {
    /// The sender waits for the acknowledgement of the frame, after this many tries that failed.
    Waits {
        frame: u32,
        tries: u32,
        phase: Phase,
    },
    GaveUp,
    Done,
}

impl Sender {
    /// This follows the acknowledgement of a frame.
    fn after(frame: u32) -> Sender {
        if frame >= LAST_FRAME {
            return Sender::Done;
        }
        Sender::Waits {
            frame: frame + 1,
            tries: 0,
            phase: Phase::Sent,
        }
    }

    /// This follows the loss of a frame or of its acknowledgement.
    fn again(frame: u32, tries: u32) -> Sender {
        if tries >= RETRIES {
            return Sender::GaveUp;
        }
        Sender::Waits {
            frame,
            tries: tries + 1,
            phase: Phase::Sent,
        }
    }
}

impl Situation for Sender {
    fn choices(self, alloc: Global) -> Option<Vec<Vec<(Self, u64)>>> {
        let Sender::Waits {
            frame,
            tries,
            phase,
        } = self
        else {
            return vec![in alloc; vec![in alloc; (self, 100)].ok()?].ok();
        };
        let still = |phase| Sender::Waits {
            frame,
            tries,
            phase,
        };
        let choice = match phase {
            Phase::Sent => {
                vec![in alloc; (still(Phase::Arrived), 98), (still(Phase::Lost), 2)].ok()?
            }
            Phase::Arrived => {
                vec![in alloc; (Sender::after(frame), 99), (still(Phase::Lost), 1)].ok()?
            }
            Phase::Lost => vec![in alloc; (Sender::again(frame, tries), 100)].ok()?,
        };
        vec![in alloc; choice].ok()
    }

    fn is_goal(self) -> bool {
        self == Sender::GaveUp
    }
}

/// Each frame is sent until it is acknowledged, but not too often. A frame is lost with probability 0.02 and an
/// acknowledgement with 0.01. The goal is that the sender gives up.
pub fn retransmission(alloc: Global) -> Option<Model> {
    let first = Sender::Waits {
        frame: 0,
        tries: 0,
        phase: Phase::Sent,
    };
    model_from(alloc, first)
}
