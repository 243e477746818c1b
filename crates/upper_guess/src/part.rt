//! This module fills the part of a table that one worker has.

ghost use Rattle.std.specs.Prelude.{◌≡◌, ◌+◌, ◌<◌, ◌≤◌, length, All, false};
ghost use Rattle.game_model.specs.Query.{states};
ghost use Rattle.game_model.specs.Limits.{unit};
ghost use Rattle.upper_guess.specs.Parts.{IsFilled};

use fixed_bellman::up_state;
use game_model::{Question, UNIT};

/// This many states are stepped between two looks ahead.
const STRETCH: usize = 64;

/// The table of this many states stays near the processor. With more states, it pays to look ahead.
const MOST_NEAR: u32 = 262_144;

/// Fills a part of the next table with the up steps of the states in a row from `first` on.
pub fn fill_part(question: &Question, table: &[u64], first: u32, part: &mut [u64])
    requires table { length table.now ≡ states question.now }
    requires units { All (λ v. v ≤ unit) table.now }
    requires part { first + length part.old ≤ states question.now }
    ensures { IsFilled question.now table.now first (length part.old) part.new }
{
    question.invariant();
    let mut from = 0;
    while from < part.len() {
        let to = part.len().min(from + STRETCH);
        if look_ahead(question, table, first + from as u32, first + to as u32) {
            return;
        }
        fill_stretch(question, table, first, part, from, to);
        from = to;
    }
}

/// Reads the entries of the successors of a stretch of states, so that the memory fetches them at once. No entry is
/// above the unit, so it answers no. The compiler keeps the reads, because the part would end at a yes.
fn look_ahead(question: &Question, table: &[u64], from: u32, to: u32) -> bool
    requires table { length table.now ≡ states question.now }
    requires units { All (λ v. v ≤ unit) table.now }
    requires order { from ≤ to }
    requires inside { to ≤ states question.now }
    ensures { result ≡ false }
{
    let game = question.game();
    game.states() > MOST_NEAR && has_excess(table, game.successors_between(from, to))
}

/// Returns whether an entry of these states is above the unit.
fn has_excess(table: &[u64], wanted: &[u32]) -> bool
    requires inside { All (λ s. s < length table.now) wanted.now }
    requires units { All (λ v. v ≤ unit) table.now }
    ensures { result ≡ false }
{
    wanted.iter().any(|state| table[*state as usize] > UNIT)
}

/// Fills in the up steps of the states from place `from` to place `to` of a part that has those below `from`.
fn fill_stretch(
    question: &Question,
    table: &[u64],
    first: u32,
    part: &mut [u64],
    from: usize,
    to: usize,
)
    requires table { length table.now ≡ states question.now }
    requires units { All (λ v. v ≤ unit) table.now }
    requires part { first + length part.old ≤ states question.now }
    requires order { from ≤ to }
    requires inside { to ≤ length part.old }
    requires before { IsFilled question.now table.now first from part.old }
    ensures { IsFilled question.now table.now first to part.new }
{
    question.invariant();
    for place in from..to {
        part[place] = up_state(question, first + place as u32, table);
    }
}
