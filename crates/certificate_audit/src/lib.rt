//! A certificate of any origin is checked for a question.
//!
//! [`audit`] reads a certificate from a text and looks only at the text and the question: what it accepts is right,
//! whoever made it. The replies hold every strategy of the maximiser, with memory and dice, to the upper table. The
//! choices reach the lower table, less any 1/m, against every strategy of the minimiser. If [`audit`] refuses a text,
//! it gives the first fault ([`AuditFault`]), and each text has one answer ([`laws`]). Each check is one pass over the
//! game. A certificate of the first version, whose values have twelve decimals, passes exactly if it passes in its own
//! units.
#![tactic(auto)]

mod certificate;
mod fault;
pub mod laws;
mod plan;

pub use certificate::audit;
pub use fault::AuditFault;
