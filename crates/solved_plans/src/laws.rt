//! The laws of this module say why there is always a plan. Each function does nothing: its contract is the law.

ghost use Rattle.std.specs.Prelude.{ℕ, [], Bool, List, slice_index};
ghost use Rattle.game_model.specs.Query.{Query, IsQuery};
ghost use Rattle.game_model.specs.Dual.{IsZeroSet};
ghost use Rattle.game_model.specs.Rounded.{IsInductive};
ghost use Rattle.game_model.specs.Tables.{IsTable};
ghost use Rattle.rank_certificate.specs.Carrying.{CanBeRanked};
ghost use Rattle.almost_sure.specs.Values.{AreAlmostSure};
ghost use Rattle.solved_plans.specs.Bounds.{sure_value, lower_bound, upper_bound};

use game_model::{Marks, Question};

/// With one plan the maximiser reaches a goal with probability 1 from every almost-sure state: the table with the unit
/// at these states and 0 elsewhere can be ranked.
pub fn almost_sure_states_have_a_plan()
    ensures { (q : Query) (sure : List Bool) (values : List ℕ) → IsQuery q → AreAlmostSure q sure
        → IsTable q (sure_value sure) values → CanBeRanked q values }
{}

/// The lower table of an empty candidate can be ranked.
pub fn almost_sure_states_are_reached(
    question: &Question,
    sure: &Marks,
    zero: &Marks,
    values: &[u64],
)
    requires sure { AreAlmostSure question.now sure.now }
    requires table { IsTable question.now (lower_bound sure.now zero.now []) values.now }
    ensures { CanBeRanked question.now values.now }
{
    question.invariant();
}

/// The upper table of an empty candidate is inductive.
pub fn bounds_of_no_entry_are_inductive(
    question: &Question,
    sure: &Marks,
    zero: &Marks,
    values: &[u64],
)
    requires zero { IsZeroSet question.now zero.now }
    requires table { IsTable question.now (upper_bound sure.now zero.now []) values.now }
    ensures { IsInductive question.now (slice_index values.now) }
{
    question.invariant();
}
