//! This module has gates for tests: each holds workers, so that a test can see what they do at once or late.

mod hold_gate;
mod late_gate;

pub use hold_gate::HoldGate;
pub use late_gate::LateGate;
