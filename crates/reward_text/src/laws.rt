//! This module has the laws of certificates of rewards. Each function does nothing: its contract is the law.

ghost use Rattle.std.specs.Prelude.{◌≡◌, ◌≤◌, ◌++◌, ◌↔◌, List, ℕ, All, Ok, codes, length};
ghost use Rattle.game_model.specs.Limits.{most_states};
ghost use Rattle.plan_text.specs.Fixed.{unit_digits};
ghost use Rattle.plan_text.specs.Laws.{IsPassedOverBy, as_lines};
ghost use Rattle.reward_text.specs.Entries.{RewardEntry, RewardCertificate, IsRewardEntry, AreBounds};
ghost use Rattle.reward_text.specs.Written.{reward_certificate_text};
ghost use Rattle.reward_text.specs.Said.{rewards_said};
ghost use Rattle.reward_text.specs.Certificate.{IsRewardCertificate};

use crate::heading::MOST_PLACES;

/// The constant is equal to the number of the definitions.
pub fn limits()
    ensures { MOST_PLACES ≡ unit_digits }
{}

/// A written certificate whose bounds go together is read back, also after lines that begin with another word.
pub fn reward_certificates_are_read_back()
    ensures { (lines : List (List ℕ)) (places : ℕ) (entries : List RewardEntry)
        → All (IsPassedOverBy (codes "rewards")) lines → places ≤ unit_digits → length entries ≤ most_states
        → All IsRewardEntry entries → All (λ (entry : RewardEntry). AreBounds entry.lower entry.upper) entries
        → rewards_said (as_lines lines ++ reward_certificate_text places entries) (length entries)
        ≡ Ok (record { places = places; entries = entries }) }
{}

/// No two certificates have the same text.
pub fn reward_certificates_have_one_reading()
    ensures { (places d : ℕ) (entries others : List RewardEntry) → places ≤ unit_digits → d ≤ unit_digits
        → length entries ≤ most_states → length others ≤ most_states
        → All IsRewardEntry entries → All (λ (entry : RewardEntry). AreBounds entry.lower entry.upper) entries
        → All IsRewardEntry others → All (λ (entry : RewardEntry). AreBounds entry.lower entry.upper) others
        → reward_certificate_text places entries ≡ reward_certificate_text d others
        → (places ≡ d) × (entries ≡ others) }
{}

/// The certificate that is read for this many states is one in the text, and each certificate in the text is read.
pub fn reward_certificates_are_what_is_read()
    ensures { (text : List ℕ) (states : ℕ) (certificate : RewardCertificate)
        → (rewards_said text states ≡ Ok certificate)
        ↔ ((length certificate.entries ≡ states) × IsRewardCertificate text certificate) }
{}
