//! This crate reports on a question that is posed, or drawn.
//!
//! - [`bracket_report`] answers a question from a bracket, with its certificate if that is asked for.
//! - [`within_report`] and [`next_report`] answer from exactly as many steps as the formula names.
//! - [`nested_report`] answers a formula with others inside.
//! - [`audit_report`] answers a question from a certificate that was accepted, whoever made it.
//! - [`solved_report`] answers a question from a plan that the tables of a solver led to.
//! - [`sure_report`] lists the almost-sure states.
//! - [`drawn_report`] makes the line of `make`, on a question that a seed draws.
#![tactic(auto)]

mod audits;
mod drawn;
pub mod laws;
mod nested;
mod reports;
mod solved;
mod sure;
mod sweeps;

pub use audits::audit_report;
pub use drawn::drawn_report;
pub use nested::nested_report;
pub use reports::bracket_report;
pub use solved::solved_report;
pub use sure::{SureReport, sure_report};
pub use sweeps::{next_report, within_report};
