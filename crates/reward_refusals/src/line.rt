//! This module makes the line that says why a run with rewards is refused.

ghost use Rattle.std.specs.Prelude.{◌≡◌, IfOk};
ghost use Rattle.reward_refusals.specs.Refusals.{text_refused, reward_refusal_text};

use crate::causes::{reward_cause, rewards_cause};
use crate::refusal::RewardRefusal;
use certificate_audit::AuditFault;
use output::{Refusal, refusal_line};
use std::alloc::{AllocError, Global};

/// Returns the line that says why a run with rewards is refused.
pub fn reward_refusal_line(alloc: Global, refusal: &RewardRefusal) -> Result<Vec<u8>, AllocError>
    ensures { IfOk result (λ line. line.items ≡ reward_refusal_text refusal.now) }
{
    match refusal {
        RewardRefusal::Shared(refusal) => refusal_line(alloc, refusal),
        RewardRefusal::OfRewards(fault) => {
            let cause = rewards_cause(alloc, fault.cause)?;
            refused(alloc, "rewards", fault.line, cause.as_str())
        }
        RewardRefusal::RewardsTooLong => refused(alloc, "rewards", 0, "TooLong"),
        RewardRefusal::OfCertificateText(fault) => {
            let refusal = Refusal::OfCertificate(AuditFault::Text(*fault));
            refusal_line(alloc, &refusal)
        }
        RewardRefusal::OfCertificate(fault) => {
            let cause = reward_cause(alloc, fault.state, fault.cause)?;
            refused(alloc, "cert", 0, cause.as_str())
        }
    }
}

// Returns the line of a fault of the text of this name.
fn refused(alloc: Global, name: &str, line: u32, cause: &str) -> Result<Vec<u8>, AllocError>
    ensures { IfOk result (λ said. said.items ≡ text_refused name.now line cause.now) }
{
    let said = format!(in alloc; "refused {name} line {line} {cause}\n")?;
    Ok(said.into_bytes())
}
