//! This module has what is rounded: a component of a question, and its local game.

ghost use Rattle.std.specs.Prelude.{◌≡◌, ◌+◌, ◌<◌, length};
ghost use Rattle.game_model.specs.Query.{states};
ghost use Rattle.components.specs.Division.{states_of};

use components::Components;
use float_games::{Bound, FloatGame};
use game_model::Question;
use predecessors::Predecessors;

/// A component of a question comes with the local game that its values come from.
#[derive(Drop)]
pub struct Input<'a, 'q> {
    /// This is the question.
    pub question: &'a Question<'q>,
    /// These are the predecessors in its game.
    pub predecessors: &'a Predecessors,
    /// These are its components.
    pub components: &'a Components,
    /// This is the component.
    pub component: u32,
    /// This is the local game. For a lower table the mark of a choice is its place among the choices of its state.
    pub game: &'a FloatGame,
    /// Each member of the component has this node in the local game.
    pub nodes: &'a [u32],
    /// This bound is rounded.
    pub bound: Bound,
    /// If the choices of the game cost something, each has a cost here, state by state, in units.
    pub costs: Option<&'a [u64]>,
    ghost predecessors_all: { length predecessors.now ≡ states question.now },
    ghost components_all: { states_of components.now ≡ states question.now },
    ghost counted: { component + 1 < length components.now.starts },
}
