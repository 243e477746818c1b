//! This module has the right to take steps on a table.

ghost use Rattle.std.specs.Prelude.{◌≡◌, ℕ, ◌<◌, ◌≤◌, [], length, true};
ghost use Rattle.game_model.specs.Query.{states, is_goal};
ghost use Rattle.game_model.specs.Limits.{unit};
ghost use Rattle.step_core.specs.Word.{value_at};

use crate::rule::{Posing, Sight};
use atomic_table::Seat;
use std::marker::PhantomData;

/// A pass is the right to take steps on a table, with what was seen of its words. It takes no bytes.
#[derive(Drop)]
pub struct Pass<P: Posing> {
    pub(crate) seat: Seat<(), Sight>,
    pub(crate) of: PhantomData<P>,
    ghost empty: { seat.me.1 ≡ [] },
    ghost live: { seat.me.0.live ≡ true },
    ghost as_many: { length seat.me.0.seen ≡ states P.posed },
    ghost units: { (s : ℕ) → s < states P.posed → value_at seat.me.0.seen s ≤ unit },
    ghost goals: { (s : ℕ) → s < states P.posed → is_goal P.posed s ≡ true → unit ≤ value_at seat.me.0.seen s },
}
