//! This module finds tables of a question whose choices have costs.

ghost use Rattle.std.specs.Prelude.{◌≡◌, ◌<◌, IfOk, length, vec_len};
ghost use Rattle.game_model.specs.Query.{states};
ghost use Rattle.predecessors.specs.Lists.{ArePredecessors};
ghost use Rattle.plan_solver.specs.Tables.{IsTable};

use crate::bounds::find_tables;
use crate::end_components::open_components;
use crate::input::Input;
use crate::state_order::StateOrder;
use game_model::{Marks, Question};
use game_outside::OutOfMemory;
use predecessors::Predecessors;
use std::alloc::Global;

/// Each choice has a cost in units, state by state.
#[derive(Clone, Copy)]
pub struct Costs<'a> {
    /// The lower table goes by these costs.
    pub lower: &'a [u64],
    /// The upper table goes by these costs.
    pub upper: &'a [u64],
}

/// Both tables come with the choices that they go by. Each list has an entry for each state.
#[derive(Drop)]
pub struct CostlyTables {
    /// The lower values are in units.
    pub lower: Vec<u64>,
    /// The maximiser plays these choices for the lower values.
    pub choices: Vec<u32>,
    /// The upper values are in units.
    pub upper: Vec<u64>,
    /// The minimiser plays these replies for the upper values.
    pub replies: Vec<u32>,
}

/// Finds what a solver takes for lower and upper values of a question whose choices have costs: the unit at a goal,
/// less what the choices on the way are expected to cost. A value is 0 where that would be less, and at the states that
/// are said to have the value 0. The maximiser takes no choice that costs more than the unit. The only error is that
/// memory ran out.
pub fn find_costly_bounds(
    alloc: Global,
    question: &Question,
    predecessors: &Predecessors,
    zero: &Marks,
    costs: Costs<'_>,
) -> Result<CostlyTables, OutOfMemory>
    requires predecessors { ArePredecessors question.now.game predecessors.now }
    requires zero { length zero.now ≡ states question.now }
    ensures lower { IfOk result (λ t. IsTable (states question.now) t.lower.items) }
    ensures upper { IfOk result (λ t. IsTable (states question.now) t.upper.items) }
    ensures choices { IfOk result (λ t. vec_len t.choices ≡ states question.now) }
    ensures replies { IfOk result (λ t. vec_len t.replies ≡ states question.now) }
{
    question.invariant();
    let goals = goals_of(alloc, question)?;
    let state_order = StateOrder::of_question(alloc, question, predecessors, Some(costs.lower))?;
    let components = open_components(alloc, question, &goals, zero, &state_order.order)?;
    let lower_input = Input {
        question,
        predecessors,
        state_order: &state_order,
        components: &components,
        sure: &goals,
        zero,
        costs: costs.lower,
    };
    let upper_input = Input {
        question,
        predecessors,
        state_order: &state_order,
        components: &components,
        sure: &goals,
        zero,
        costs: costs.upper,
    };
    let tables = find_tables(alloc, &lower_input, &upper_input)?;
    Ok(CostlyTables {
        lower: tables.lower.into_entries(),
        choices: tables.choices,
        upper: tables.upper.into_entries(),
        replies: tables.replies,
    })
}

/// Returns the goals.
fn goals_of(alloc: Global, question: &Question) -> Result<Marks, OutOfMemory>
    ensures { IfOk result (λ marks. length marks ≡ states question.now) }
{
    question.invariant();
    let states = question.game().states();
    let mut list = Vec::with_capacity(alloc, states as usize)?;
    for state in 0..states {
        list.push(question.is_goal(state))?;
    }
    Ok(Marks::of_list(list))
}
