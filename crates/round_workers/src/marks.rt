//! This module finds and sets the marks of the states that a round updates.

ghost use Rattle.std.specs.Prelude.{◌≡◌, ℕ, ◌<◌, ◌≤◌, length, false, MatchBool};
ghost use Rattle.std.specs.List.{AllWithin};
ghost use Rattle.game_model.specs.Limits.{most_states};
ghost use Rattle.predecessors.specs.Marks.{IsMarked};
ghost use Rattle.round_workers.specs.Marks.{HasMark, IsNextMark};

use predecessors::Predecessors;

/// This many marks in a row are looked at together.
pub const STRETCH: u32 = 64;

/// Returns whether there is a mark from one place up to and not including another.
pub fn has_mark(marks: &[bool], from: u32, to: u32) -> bool
    requires range { from ≤ to }
    requires inside { to ≤ length marks.now }
    ensures { MatchBool result (HasMark marks.now from to) (AllWithin (λ m. m ≡ false) marks.now from to) }
{
    let mut any = false;
    for place in from..to {
        any |= marks[place as usize];
    }
    any
}

/// Returns the first place from one on that has a mark, or the number of marks if there is none.
pub fn next_mark(marks: &[bool], from: u32) -> u32
    requires few { length marks.now ≤ most_states }
    requires from { from ≤ length marks.now }
    ensures { IsNextMark marks.now from result }
{
    let begin = marked_stretch(marks, from);
    first_mark(marks, begin)
}

/// Returns where the first stretch from a place on begins that has a mark.
fn marked_stretch(marks: &[bool], from: u32) -> u32
    requires few { length marks.now ≤ most_states }
    requires from { from ≤ length marks.now }
    ensures within { (from ≤ result) × (result ≤ length marks.now) }
    ensures none { AllWithin (λ m. m ≡ false) marks.now from result }
{
    let count = marks.len() as u32;
    let mut place = from;
    while place < count {
        let end = count.min(place + STRETCH);
        if has_mark(marks, place, end) {
            return place;
        }
        place = end;
    }
    place
}

/// Returns the first place from one on that has a mark. It looks at one place after another.
fn first_mark(marks: &[bool], from: u32) -> u32
    requires few { length marks.now ≤ most_states }
    requires from { from ≤ length marks.now }
    ensures { IsNextMark marks.now from result }
{
    let count = marks.len() as u32;
    for place in from..count {
        if marks[place as usize] {
            return place;
        }
    }
    count
}

/// Marks the predecessors of a state that come after it. The first mark is that of the state `first`. Predecessors past
/// the last mark are left out.
pub fn mark_behind(predecessors: &Predecessors, state: u32, first: u32, marks: &mut [bool])
    requires state { state < length predecessors.now }
    requires first { first ≤ state }
    ensures kept { (k : ℕ) → IsMarked marks.old k → IsMarked marks.new k }
{
    for step in predecessors.of_state(state) {
        if state < step.state {
            let place = (step.state - first) as usize;
            if place < marks.len() {
                marks[place] = true;
            }
        }
    }
}
