//! This crate makes tables of whole units that hold from values in floating point.
//!
//! A lower table holds at a state if its entry is at most what the planned choice of the maximiser and each choice of
//! the minimiser give by it. An upper table holds if its entry is at least what each choice of the maximiser and the
//! planned one of the minimiser give. [`round_component`] finds entries for the states of a component that hold and are
//! near values, and [`single_entry`] finds that of a component of one state. [`UnitTable`] is a table of units. What a
//! choice gives is less by its cost, if choices have costs ([`cost_of`]).
//!
//! Values are rounded, settled in floating point by rounded steps, and repaired by exact ones in 128 bits, until each
//! entry holds. If that would take long, values are moved away by some units for each move that the policy is expected
//! to make, or found anew when each move costs some units. Then they are brought back as near as entries settle soon.
//! If nothing helps, the entries are 0 or the unit.
//!
//! Entries are from 0 to the unit. Nothing else is promised of them, not even that they hold, so a caller tests that.
//! Each loop has its count.
#![tactic(auto)]

mod costs;
mod exact;
mod input;
mod margins;
mod repair;
mod rounding;
mod table;

pub use costs::cost_of;
pub use exact::{Entry, single_entry};
pub use input::Input;
pub use margins::round_component;
pub use table::UnitTable;
