//! This module changes the marks of places one by one.

ghost use Rattle.std.specs.Prelude.{◌≡◌, ◌<◌, ◌&&◌, ◌||◌, ℕ, not, length, slice_index_or, false};

/// Exchanges the marked places with the others.
pub fn negate(marks: &mut [bool])
    ensures { (s : ℕ) → s < length marks.old
        → slice_index_or marks.new s false ≡ not (slice_index_or marks.old s false) }
{
    for mark in marks.iter_mut() {
        *mark = !*mark;
    }
}

/// Keeps the marks that the others have as well.
pub fn intersect(marks: &mut [bool], others: &[bool])
    requires { length others.now ≡ length marks.old }
    ensures { (s : ℕ) → s < length marks.old
        → slice_index_or marks.new s false ≡ (slice_index_or marks.old s false && slice_index_or others.now s false) }
{
    for place in 0..marks.len() {
        marks[place] = marks[place] && others[place];
    }
}

/// Adds the marks of others.
pub fn unite(marks: &mut [bool], others: &[bool])
    requires { length others.now ≡ length marks.old }
    ensures { (s : ℕ) → s < length marks.old
        → slice_index_or marks.new s false ≡ (slice_index_or marks.old s false || slice_index_or others.now s false) }
{
    for place in 0..marks.len() {
        marks[place] = marks[place] || others[place];
    }
}
