//! The bounds of a value give a verdict on a threshold. A run may stop for it, and a report tells it.
//!
//! [`settle`] compares a lower and an upper bound, in units, with the threshold, exactly. A [`StopRule`] is a bound
//! with a closure that is true exactly if it is settled; the caller makes the closure:
//!
//! ```text
//! let stop = StopRule::of_bound(bound, |lower, upper| settle(&bound, lower, upper).is_settling());
//! ```
//!
//! [`report_text`] writes the lines of a run. [`laws`] says that verdicts are true, and that a report has one reading.
#![tactic(auto)]

pub mod laws;
mod report;
mod stop;
mod verdict;

pub use report::{How, ReportLine, report_text};
pub use stop::StopRule;
pub use verdict::{Verdict, settle, verdict_by};
