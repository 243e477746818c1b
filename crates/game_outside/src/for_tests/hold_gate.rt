//! This module has a gate that shows that two workers work at once.

ghost use Rattle.std.specs.Prelude.{◌≡◌};

use crate::gate::Gate;
use std::sync::atomic::{AtomicBool, Ordering};
use std::thread;

/// A worker is held for this many turns, unless another number is given.
const TURNS: u32 = 10_000_000;

/// This gate holds the first arrivals of the workers 0 and 1 until both have arrived, for a number of turns each. If
/// the two run one after another, it gives up. No clause says that it holds anybody.
#[derive(Drop)]
pub struct HoldGate {
    turns: u32,
    first: AtomicBool,
    second: AtomicBool,
    gave_up: AtomicBool,
}

impl HoldGate {
    /// Returns a gate at which nobody has arrived.
    pub fn new() -> HoldGate
        ensures { result.turns ≡ TURNS }
    {
        HoldGate::holding_for(TURNS)
    }

    /// Returns the same gate, which holds a worker for this many turns.
    pub fn holding_for(turns: u32) -> HoldGate
        ensures { result.turns ≡ turns }
    {
        HoldGate {
            turns,
            first: AtomicBool::new(false),
            second: AtomicBool::new(false),
            gave_up: AtomicBool::new(false),
        }
    }

    /// Returns whether a worker's turns ran out before the other arrived.
    pub fn gave_up(&self) -> bool {
        self.gave_up.load(Ordering::SeqCst)
    }

    // Marks that a worker has arrived. If it arrives for the first time, it is held for the other.
    fn hold(&self, arrived: &AtomicBool, other: &AtomicBool) {
        if arrived.swap(true, Ordering::SeqCst) {
            return;
        }
        for _ in 0..self.turns {
            if other.load(Ordering::SeqCst) {
                return;
            }
            thread::yield_now();
        }
        self.gave_up.store(true, Ordering::SeqCst);
    }
}

impl Gate for HoldGate {
    fn arrive(&self, worker: u32, state: u32) {
        let _ = state;
        match worker {
            0 => self.hold(&self.first, &self.second),
            1 => self.hold(&self.second, &self.first),
            _ => {}
        }
    }
}

// The workers share one gate.
fn shared<T: Sync>(_: &T) {}

fn hold_gate_is_shared(gate: &HoldGate) {
    shared(gate);
}
