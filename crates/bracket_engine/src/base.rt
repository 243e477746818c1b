//! This module has the base over which both sides of a bracket are made.

ghost use Rattle.std.specs.Prelude.{◌≡◌, ◌≤◌, length, All};
ghost use Rattle.game_model.specs.Limits.{unit};
ghost use Rattle.game_model.specs.Query.{IsQuery, states};
ghost use Rattle.predecessors.specs.Lists.{ArePredecessors};

use game_model::{Marks, Question};
use predecessors::Predecessors;

/// A base is a question with its zero set and predecessors, and the lower bounds that its rounds reached.
#[derive(Clone, Copy)]
pub struct Base<'a> {
    pub question: &'a Question<'a>,
    pub zero: &'a Marks,
    pub predecessors: &'a Predecessors,
    pub values: &'a [u64],
    ghost posed: { IsQuery question.now },
    ghost lists: { ArePredecessors question.now.game predecessors.now },
    ghost many: { length values.now ≡ states question.now },
    ghost units: { All (λ v. v ≤ unit) values.now },
}
