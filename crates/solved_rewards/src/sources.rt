//! This module has what a certificate is made of.

ghost use Rattle.std.specs.Prelude.{◌≡◌, ℕ, ◌<◌, false, length};
ghost use Rattle.game_model.specs.Query.{IsQuery, states, is_dead};

use game_model::Question;
use reward_solver::RewardCandidates;

/// A certificate of a question is made of the finite states, the choices and ranks of the others, the candidates of a
/// solver, and ranks by which plays under the candidates' replies end.
#[derive(Clone, Copy)]
pub struct Sources<'a> {
    pub question: &'a Question<'a>,
    pub finite: &'a [bool],
    pub away_choices: &'a [Option<u32>],
    pub away_ranks: &'a [u32],
    pub candidates: &'a RewardCandidates,
    pub end_ranks: &'a [u32],
    ghost posed: { IsQuery question.now },
    ghost alive: { (s : ℕ) → s < states question.now → is_dead question.now s ≡ false },
    ghost many_finite: { length finite.now ≡ states question.now },
    ghost many_choices: { length away_choices.now ≡ states question.now },
    ghost many_ranks: { length away_ranks.now ≡ states question.now },
    ghost many_ends: { length end_ranks.now ≡ states question.now },
}
