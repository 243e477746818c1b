//! This module has the laws of refusals. Each function does nothing: its contract is the law.

ghost use Rattle.std.specs.Prelude.{◌≡◌};
ghost use Rattle.reward_refusals.specs.declared.refusal.RewardRefusal.{RewardRefusal};
ghost use Rattle.reward_refusals.specs.Caused.{IsRewardCaused};
ghost use Rattle.reward_refusals.specs.Printable.{RewardRefusalPrintable};
ghost use Rattle.reward_refusals.specs.Refusals.{reward_refusal_text};

/// No two refusals that loading hands out have the same line, if their numbers have at most 64 digits. Their types
/// allow at most 39.
pub fn reward_refusals_have_one_reading()
    ensures { (refusal other : RewardRefusal) → IsRewardCaused refusal → IsRewardCaused other
        → RewardRefusalPrintable refusal → RewardRefusalPrintable other
        → reward_refusal_text refusal ≡ reward_refusal_text other → refusal ≡ other }
{}
