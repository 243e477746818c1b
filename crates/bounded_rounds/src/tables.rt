//! This module has the table that a step reads.

ghost use Rattle.bounded_rounds.specs.inside.Parts.{IsBoundsTable};

use fixed_bellman::Bounds;
use game_model::Question;

/// Every worker of a step reads a question, and the bounds of its states.
#[derive(Clone, Copy)]
pub struct Tables<'a> {
    pub question: &'a Question<'a>,
    pub table: &'a [Bounds],
    ghost bounds: { IsBoundsTable question.now table.now },
}
