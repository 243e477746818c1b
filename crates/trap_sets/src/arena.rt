//! This module has a table over a question.

ghost use Rattle.std.specs.Prelude.{◌≡◌, ◌≤◌, length, All};
ghost use Rattle.game_model.specs.Query.{IsQuery, states};
ghost use Rattle.game_model.specs.Limits.{unit};

use game_model::Question;

/// A table gives each state of a question a number of units.
#[derive(Clone, Copy)]
pub struct Table<'q> {
    pub question: &'q Question<'q>,
    pub entries: &'q [u64],
    ghost posed: { IsQuery question.now },
    ghost many: { length entries.now ≡ states question.now },
    ghost units: { All (λ v. v ≤ unit) entries.now },
}
