//! Certificates are written as text and read from text, and so are the values in them.
//!
//! [`write_plan`] spells a certificate line by line. [`read_plan`] reads one of any origin: it gives what the text says
//! of each state, or the first line at fault and its cause. A written certificate is read back ([`laws`]). A value, a
//! count of units, is one digit, a point and fifteen digits ([`fixed_text`]), so each text has one reading.
//! Certificates of the first version, whose values have twelve digits after the point, are read too.
//!
//! What does not depend on the form of a value is said of any: a crate that writes and reads another kind of
//! certificate takes the entry, the lines, the first line and the end of a text from here.
#![tactic(auto)]

mod entry;
mod fault;
mod fixed;
mod heading;
pub mod laws;
mod onto;
mod plan;
mod read;
mod version;
mod write;

pub use entry::{choice_in, is_small};
pub use fault::{PlanCause, PlanFault};
pub use fixed::{append_fixed, fixed_text};
pub use heading::find_first_line;
pub use onto::{append, append_count, append_number};
pub use plan::{Plan, narrowed};
pub use read::{cause_of, check_end, read_plan};
pub use write::{append_choice, append_plan, append_rank, write_plan};
