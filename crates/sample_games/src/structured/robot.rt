// A robot moves on a square grid with wind.
use super::Model;
use crate::draft::{Draft, merged};
use std::alloc::Global;

/// A side of the grid has this many fields.
const SIDE: u32 = 160;

/// The grid has this many fields, which are numbered by rows.
const FIELDS: u32 = SIDE * SIDE;

/// The robot steers this way.
#[derive(Clone, Copy)]
enum Way {
    East,
    South,
    West,
    North,
}

impl Way {
    /// Returns the ways to both sides, in any order, because the robot slips to each with the same weight.
    fn sides(self) -> (Way, Way) {
        match self {
            Way::East | Way::West => (Way::North, Way::South),
            Way::South | Way::North => (Way::East, Way::West),
        }
    }

    /// Returns the field that a step leads to. At the border the robot stays.
    fn from(self, field: u32) -> u32 {
        match self {
            Way::East if field % SIDE < SIDE - 1 => field.saturating_add(1),
            Way::South if field < FIELDS - SIDE => field + SIDE,
            Way::West if field % SIDE > 0 => field.saturating_sub(1),
            Way::North if field >= SIDE => field - SIDE,
            Way::East | Way::South | Way::West | Way::North => field,
        }
    }
}

/// The robot steers in one of four directions. It gets there with probability 0.8, and is blown to either side with 0.1
/// each. The goal is the far corner. Every seventeenth field is a pit, which the robot never leaves.
pub fn robot(alloc: Global) -> Option<Model> {
    let mut draft = Draft::new(alloc, FIELDS);
    let mut goal = Vec::new(alloc);
    for field in 0..FIELDS {
        let is_goal = field == FIELDS - 1;
        goal.push(is_goal).ok()?;
        if is_goal || field % 17 == 16 {
            draft.one(alloc, &[(field, 100)])?;
        } else {
            add_field(alloc, &mut draft, field)?;
        }
    }
    Some(Model {
        game: draft.game(alloc)?,
        goal,
    })
}

// Adds the next field, with its four choices.
fn add_field(alloc: Global, draft: &mut Draft, field: u32) -> Option<()> {
    for way in &[Way::East, Way::South, Way::West, Way::North] {
        draft.choice(alloc, &steered(alloc, field, *way)?)?;
    }
    draft.end_state(alloc)
}

// Makes the edges of the choice to steer this way.
fn steered(alloc: Global, field: u32, way: Way) -> Option<Vec<(u32, u64)>> {
    let (left, right) = way.sides();
    merged(
        alloc,
        &[
            (way.from(field), 80),
            (left.from(field), 10),
            (right.from(field), 10),
        ],
    )
}
