//! A certificate of expected rewards, of any origin, is checked for a question.
//!
//! [`audit_rewards`] reads a certificate from a text, and looks only at the text, the question and its rewards: what it
//! accepts is right, whoever made it. The replies hold every strategy of the maximiser, with memory and dice, to the
//! upper values. Under the choices every strategy of the minimiser that reaches a goal almost surely pays the lower
//! values. If [`audit_rewards`] refuses a text, it gives the first fault ([`RewardAuditFault`]), and each text has one
//! answer ([`laws`]).
#![tactic(auto)]

mod audit;
mod audited;
mod fault;
pub mod laws;

pub use audit::audit_rewards;
pub use audited::AuditedRewards;
pub use fault::RewardAuditFault;
