//! This module says what the values that were found in words say.

ghost use Rattle.std.specs.Prelude.{MatchOption};
ghost use Rattle.command_words.specs.Grammar.{value_in};
ghost use Rattle.reward_words.specs.Words.{AuditReward, SolveReward, SayAuditReward, SaySolveReward, audit_reward_of, solve_reward_of};

use crate::words::{AuditRewardWords, SolveRewardWords};
use clap::ArgMatches;
use command_words::{asked_words, file_word, is_given};

/// Returns what the values say of `audit`, or none if they say no command.
pub fn audit_reward_words<'a>(matches: &ArgMatches<'a>) -> Option<AuditRewardWords<'a>>
    ensures { MatchOption result ((audit : AuditReward) → SayAuditReward (value_in matches.now) audit → ⊥)
        (λ audit. SayAuditReward (value_in matches.now) (audit_reward_of audit)) }
{
    Some(AuditRewardWords {
        asked: asked_words(matches)?,
        rewards: file_word(matches.get_str("rewards"))?,
        certificate: file_word(matches.get_str("certificate"))?,
    })
}

/// Returns what the values say of `solve`, or none if they say no command.
pub fn solve_reward_words<'a>(matches: &ArgMatches<'a>) -> Option<SolveRewardWords<'a>>
    ensures { MatchOption result ((solve : SolveReward) → SaySolveReward (value_in matches.now) solve → ⊥)
        (λ solve. SaySolveReward (value_in matches.now) (solve_reward_of solve)) }
{
    Some(SolveRewardWords {
        asked: asked_words(matches)?,
        rewards: file_word(matches.get_str("rewards"))?,
        plan: is_given(matches.get_str("plan")),
    })
}
