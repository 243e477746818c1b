//! This module has the tables of a certificate of rewards.

ghost use Rattle.std.specs.Prelude.{◌≡◌, ℕ, ◌<◌, ◌≤◌, false, length, All};
ghost use Rattle.game_model.specs.Limits.{unit};
ghost use Rattle.game_model.specs.Query.{IsQuery, states, is_dead};

use game_model::Question;

/// A certificate of rewards is for a question in which no state is dead. Values and rewards are whole numbers of one
/// unit, and a value is at most 10^15 of them. If a value of a state is no number, its entry plays no part. A list of
/// rewards has one for each choice, state by state; a choice after the end of the list pays 0.
#[derive(Clone, Copy)]
pub struct RewardTables<'a> {
    /// The certificate is for this question.
    pub question: &'a Question<'a>,
    /// Each choice has this reward, rounded down.
    pub low: &'a [u64],
    /// Each choice has this reward, rounded up.
    pub high: &'a [u64],
    /// This says whether the lower value of a state is a number. If not, it is infinite.
    pub finite: &'a [bool],
    /// This says whether the upper value of a state is a number. If not, none is claimed.
    pub bounded: &'a [bool],
    /// These are the lower values.
    pub lower: &'a [u64],
    /// These are the upper values.
    pub upper: &'a [u64],
    /// These are the choices of the maximiser.
    pub choices: &'a [Option<u32>],
    /// These are the replies of the minimiser.
    pub replies: &'a [Option<u32>],
    /// Each state has a rank.
    pub ranks: &'a [u32],
    ghost posed: { IsQuery question.now },
    ghost alive: { (s : ℕ) → s < states question.now → is_dead question.now s ≡ false },
    ghost many_finite: { length finite.now ≡ states question.now },
    ghost many_bounded: { length bounded.now ≡ states question.now },
    ghost many_lower: { length lower.now ≡ states question.now },
    ghost many_upper: { length upper.now ≡ states question.now },
    ghost many_choices: { length choices.now ≡ states question.now },
    ghost many_replies: { length replies.now ≡ states question.now },
    ghost many_ranks: { length ranks.now ≡ states question.now },
    ghost lower_units: { All (λ v. v ≤ unit) lower.now },
    ghost upper_units: { All (λ v. v ≤ unit) upper.now },
}
