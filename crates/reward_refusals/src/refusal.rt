//! This module says why a run with rewards is refused, and how it ends then.

ghost use Rattle.std.specs.Prelude.{◌≡◌};
ghost use Rattle.reward_refusals.specs.Status.{shared_status};

use output::{Refusal, Status, Text};
use plan_text::PlanFault;
use reward_check::RewardFault;
use rewards_reader::RewardsFault;

/// This is the first fault of what a run with rewards was given.
#[derive(Drop)]
pub enum RewardRefusal {
    /// A question of probabilities can be refused for this, too.
    Shared(Refusal),
    /// The file of rewards has a fault.
    OfRewards(RewardsFault),
    /// The file of rewards has more bytes than are read.
    RewardsTooLong,
    /// The text of the certificate has a fault.
    OfCertificateText(PlanFault),
    /// The certificate is refused for what it says.
    OfCertificate(RewardFault),
}

impl RewardRefusal {
    ghost use Rattle.std.specs.Prelude.{◌≡◌};
    ghost use Rattle.reward_refusals.specs.Status.{reward_status};

    /// Returns the status of the run. A refused certificate has a status of its own.
    pub fn status(&self) -> Status
        ensures { result ≡ reward_status self.now }
    {
        match self {
            RewardRefusal::Shared(refusal) => status_of(refusal),
            RewardRefusal::OfRewards(_) | RewardRefusal::RewardsTooLong => Status::ModelRefused,
            RewardRefusal::OfCertificateText(_) | RewardRefusal::OfCertificate(_) => {
                Status::CertificateRefused
            }
        }
    }
}

// Returns the status of a refusal that questions of probabilities have too.
fn status_of(refusal: &Refusal) -> Status
    ensures { result ≡ shared_status refusal.now }
{
    match refusal {
        Refusal::OfCertificate(_) | Refusal::TooLong(Text::Cert) => Status::CertificateRefused,
        Refusal::OfTra(_)
        | Refusal::OfLab(_)
        | Refusal::OfOwn(_)
        | Refusal::OfFormula(_)
        | Refusal::OfQuestion(_)
        | Refusal::WrongKind
        | Refusal::OfValues(_)
        | Refusal::TooLong(Text::Tra | Text::Lab | Text::Own | Text::Values) => {
            Status::ModelRefused
        }
    }
}
