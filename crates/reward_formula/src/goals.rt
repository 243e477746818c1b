//! This module reads the goal of a formula of rewards, up to the end of the text.

ghost use Rattle.std.specs.Prelude.{◌≡◌};
ghost use Rattle.game_outside.specs.Answers.{AnswersOrWants};
ghost use Rattle.formula_tokens.specs.Fault.{IsOutOfMemory};
ghost use Rattle.formula_tokens.specs.Cursor.{tokens_at};
ghost use Rattle.formula_reader.specs.Formula.{state_of};
ghost use Rattle.formula_reader.specs.Grammar.{finished};
ghost use Rattle.reward_formula.specs.Grammar.{any_goal, inner_place, goal, first_fault};

use formula_reader::{MOST_NESTED, StateFormula, begins_formula, read_state};
use formula_tokens::{Cursor, FormulaCause, FormulaFault, Lead, behind, next_lead};
use std::alloc::Global;

/// Reads `[ F state ]` and the end of the text. A formula inside the state formula is a fault where it begins.
#[tactic(auto, using(crate::proofs::GoalCases::goals))]
pub fn read_goal(alloc: Global, cursor: Cursor<'_>) -> Result<StateFormula, FormulaFault>
    ensures { AnswersOrWants IsOutOfMemory state_of result (goal (tokens_at cursor.entry)) }
{
    let read = read_any_goal(alloc, cursor);
    match inner_place(cursor) {
        None => read,
        Some(place) => match read {
            Ok(_) => Err(FormulaFault::new(place, FormulaCause::Unexpected)),
            Err(fault) => Err(first_fault(fault, place)),
        },
    }
}

// Reads the same, where formulas may be inside.
fn read_any_goal(alloc: Global, cursor: Cursor<'_>) -> Result<StateFormula, FormulaFault>
    ensures { AnswersOrWants IsOutOfMemory state_of result (any_goal (tokens_at cursor.entry)) }
{
    let opened = behind(cursor, "[")?;
    let reached = behind(opened, "F")?;
    let (state, rest) = read_state(alloc, MOST_NESTED, reached)?;
    let closed = behind(rest, "]")?;
    finished(state, closed)
}

// Returns the state formula if the text ends here.
fn finished(state: StateFormula, cursor: Cursor<'_>) -> Result<StateFormula, FormulaFault>
    ensures { AnswersOrWants IsOutOfMemory state_of result (finished (state_of state) (tokens_at cursor.entry)) }
{
    match next_lead(cursor) {
        Lead::Finish(_) => Ok(state),
        Lead::Token(token) => Err(token.fault(FormulaCause::Unexpected)),
        Lead::Broken(fault) => Err(fault),
    }
}

// Returns the place of the first token that begins a formula inside.
#[tactic(auto, using(crate::proofs::GoalCases::places))]
fn inner_place(cursor: Cursor<'_>) -> Option<u32>
    ensures { result ≡ inner_place (tokens_at cursor.entry) }
{
    let mut rest = cursor;
    loop {
        match next_lead(rest) {
            Lead::Token(token) => {
                if begins_formula(&token) {
                    return Some(token.place);
                }
                rest = token.after;
            }
            Lead::Finish(_) => return None,
            Lead::Broken(_) => return None,
        }
    }
}

// Returns this fault if it comes before the place, and otherwise that the token at the place is not allowed.
fn first_fault(fault: FormulaFault, place: u32) -> FormulaFault
    ensures { result ≡ first_fault fault place }
{
    if fault.place < place {
        fault
    } else {
        FormulaFault::new(place, FormulaCause::Unexpected)
    }
}
