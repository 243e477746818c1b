//! This module has the laws of certificates of rewards. Each function does nothing: its contract is the law.

ghost use Rattle.std.specs.Prelude.{◌≡◌, ℕ, ◌<◌, false, length};
ghost use Rattle.game_model.specs.Query.{IsQuery, states, is_dead};
ghost use Rattle.reward_check.specs.declared.check.RewardCause.{RewardCause};
ghost use Rattle.reward_check.specs.Certificates.{Certificate, IsSound};
ghost use Rattle.reward_check.specs.Parts.{IsAccepted};
ghost use Rattle.reward_check.specs.Faults.{IsRewardFault};

/// What is accepted is sound, whoever made it.
pub fn accepted_rewards_are_sound()
    ensures { (c : Certificate) → IsQuery c.question
        → ((s : ℕ) → s < states c.question → is_dead c.question s ≡ false)
        → length c.bounded ≡ states c.question → IsAccepted c → IsSound c }
{}

/// Two faults of one certificate are the same.
pub fn reward_faults_are_one()
    ensures { (c : Certificate) (s t : ℕ) (cause other : RewardCause) →
        IsRewardFault c s cause → IsRewardFault c t other → (s ≡ t) × (cause ≡ other) }
{}
