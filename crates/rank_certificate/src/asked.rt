//! A search for ranks is about a question and its values.

ghost use Rattle.std.specs.Prelude.{◌≡◌, ◌≤◌, length, All, option_copied};
ghost use Rattle.game_model.specs.Query.{IsQuery, states};
ghost use Rattle.game_model.specs.Limits.{unit};
ghost use Rattle.predecessors.specs.Lists.{ArePredecessors};
ghost use Rattle.rank_certificate.specs.Carrying.{AreOfStates};

use game_model::Question;
use predecessors::Predecessors;

/// A search for ranks is about a question, its values in units, the choices of the maximiser, if they are given, and
/// for each state the moves that lead to it.
#[derive(Clone, Copy)]
pub struct Asked<'a> {
    pub question: &'a Question<'a>,
    pub values: &'a [u64],
    pub only: Option<&'a [Option<u32>]>,
    pub predecessors: &'a Predecessors,
    ghost posed: { IsQuery question.now },
    ghost valued: { length values.now ≡ states question.now },
    ghost units: { All (λ v. v ≤ unit) values.now },
    ghost chosen: { AreOfStates question.now (option_copied only) },
    ghost lists: { ArePredecessors question.now.game predecessors.now },
}

impl Asked<'_> {
    ghost use Rattle.std.specs.Prelude.{ℕ, ◌<◌, ◌↔◌, IsTrue};
    ghost use Rattle.rank_certificate.specs.inside.OfAsked.{states_in, NeedsRankIn};

    /// Returns whether a state has a positive value and is neither goal nor dead.
    pub fn needs_rank(&self, state: u32) -> bool
        requires { state < states_in self.now }
        ensures { IsTrue result ↔ NeedsRankIn self.now state }
    {
        self.values[state as usize] > 0
            && !self.question.is_goal(state)
            && !self.question.is_dead(state)
    }
}
