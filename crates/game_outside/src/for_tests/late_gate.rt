//! This module has a gate that shows that a worker reads what others have just raised.

ghost use Rattle.std.specs.Prelude.{◌≡◌};

use crate::gate::Gate;
use std::sync::atomic::{AtomicBool, AtomicU64, Ordering};
use std::thread;

/// A worker is held for this many turns, unless another number is given.
const TURNS: u32 = 10_000_000;

/// This gate holds the first arrival of one worker until the others have arrived this often in all, for a number of
/// turns. If they don't, it gives up. No clause says that it holds anybody.
#[derive(Drop)]
pub struct LateGate {
    turns: u32,
    held: u32,
    others: u32,
    arrived: AtomicBool,
    // The count is so wide that no run comes to its end.
    arrivals: AtomicU64,
    gave_up: AtomicBool,
}

impl LateGate {
    /// Returns a gate that holds this worker until the others have arrived this often.
    pub fn new(held: u32, others: u32) -> LateGate
        ensures held { result.held ≡ held }
        ensures others { result.others ≡ others }
        ensures turns { result.turns ≡ TURNS }
    {
        LateGate::holding_for(held, others, TURNS)
    }

    /// Returns the same gate, which holds the worker for this many turns.
    pub fn holding_for(held: u32, others: u32, turns: u32) -> LateGate
        ensures held { result.held ≡ held }
        ensures others { result.others ≡ others }
        ensures turns { result.turns ≡ turns }
    {
        LateGate {
            turns,
            held,
            others,
            arrived: AtomicBool::new(false),
            arrivals: AtomicU64::new(0),
            gave_up: AtomicBool::new(false),
        }
    }

    /// Returns whether the worker's turns ran out before the others had arrived this often.
    pub fn gave_up(&self) -> bool {
        self.gave_up.load(Ordering::SeqCst)
    }

    // Holds the worker for the others if it arrives for the first time.
    fn hold(&self) {
        if self.arrived.swap(true, Ordering::SeqCst) {
            return;
        }
        for _ in 0..self.turns {
            if self.arrivals.load(Ordering::SeqCst) >= u64::from(self.others) {
                return;
            }
            thread::yield_now();
        }
        self.gave_up.store(true, Ordering::SeqCst);
    }
}

impl Gate for LateGate {
    fn arrive(&self, worker: u32, state: u32) {
        let _ = state;
        if worker == self.held {
            self.hold();
        } else {
            self.arrivals.fetch_add(1, Ordering::SeqCst);
        }
    }
}

// The workers share one gate.
fn shared<T: Sync>(_: &T) {}

fn late_gate_is_shared(gate: &LateGate) {
    shared(gate);
}
