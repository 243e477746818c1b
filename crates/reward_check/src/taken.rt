//! A part looks at some states, and some of their choices may be taken.

ghost use Rattle.std.specs.Prelude.{◌≡◌, ◌<◌, ◌↔◌, slice_index_or, None, IsTrue, IfNone, IfSome};
ghost use Rattle.game_model.specs.Query.{states, side_at};
ghost use Rattle.reward_check.specs.Certificates.{said};
ghost use Rattle.reward_check.specs.Parts.{planner_of, plan_of, LooksAt, HasChoice};
ghost use Rattle.reward_check.specs.Faults.{missing_of};
ghost use Rattle.reward_check.specs.inside.Ranges.{IsRangeOf};

use crate::check::RewardCause;
use crate::parts::Part;
use crate::range::ChoiceRange;
use crate::tables::RewardTables;
use game_model::Side;

/// Returns whether a part looks at a state.
pub fn looks_at(tables: &RewardTables<'_>, part: Part, state: u32) -> bool
    requires { state < states tables.now.question.now }
    ensures { IsTrue result ↔ LooksAt part (said tables.now) state }
{
    if tables.question.is_goal(state) {
        return false;
    }
    match part {
        Part::Upper => tables.bounded[state as usize],
        Part::Ranks => tables.bounded[state as usize],
        Part::Lower => tables.finite[state as usize] && tables.lower[state as usize] > 0,
        Part::Infinite => !tables.finite[state as usize],
    }
}

/// Returns the choices of a state that may be taken, or none if the planner is to move and has no choice in range.
pub fn taken(tables: &RewardTables<'_>, part: Part, state: u32) -> Option<ChoiceRange>
    requires { state < states tables.now.question.now }
    ensures own { IfNone result (side_at tables.now.question.now state ≡ planner_of part) }
    ensures none { IfNone result (¬ HasChoice part (said tables.now) state) }
    ensures some { IfSome result (IsRangeOf part (said tables.now) state) }
{
    tables.question.invariant();
    let choices = tables.question.game().choices_of(state);
    if !same(tables.question.side(state), planner(part)) {
        return Some(ChoiceRange {
            from: 0,
            to: choices,
        });
    }
    let Some(choice) = planned(tables, part, state) else {
        return None;
    };
    if choice >= choices {
        return None;
    }
    Some(ChoiceRange {
        from: choice,
        to: choice + 1,
    })
}

/// Returns the side whose plan a part is about.
fn planner(part: Part) -> Side
    ensures { result ≡ planner_of part }
{
    match part {
        Part::Upper => Side::Min,
        Part::Ranks => Side::Min,
        Part::Lower => Side::Max,
        Part::Infinite => Side::Max,
    }
}

/// Returns the choice of that plan at a state.
fn planned(tables: &RewardTables<'_>, part: Part, state: u32) -> Option<u32>
    requires { state < states tables.now.question.now }
    ensures { result ≡ slice_index_or (plan_of part (said tables.now)) state None }
{
    match part {
        Part::Upper => tables.replies[state as usize],
        Part::Ranks => tables.replies[state as usize],
        Part::Lower => tables.choices[state as usize],
        Part::Infinite => tables.choices[state as usize],
    }
}

/// Returns the cause if a plan has no choice in range.
pub fn missing(part: Part) -> RewardCause
    ensures { result ≡ missing_of part }
{
    match part {
        Part::Upper => RewardCause::Reply,
        Part::Ranks => RewardCause::Reply,
        Part::Lower => RewardCause::Choice,
        Part::Infinite => RewardCause::Choice,
    }
}

/// Returns whether two sides are the same.
fn same(one: Side, other: Side) -> bool
    ensures { IsTrue result ↔ (one ≡ other) }
{
    match one {
        Side::Max => match other {
            Side::Max => true,
            Side::Min => false,
        },
        Side::Min => match other {
            Side::Max => false,
            Side::Min => true,
        },
    }
}
