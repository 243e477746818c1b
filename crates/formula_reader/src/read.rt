//! This module reads formulas.

ghost use Rattle.std.specs.Prelude.{option_map};
ghost use Rattle.game_outside.specs.Answers.{AnswersOrWants};
ghost use Rattle.formula_tokens.specs.Fault.{IsOutOfMemory};
ghost use Rattle.formula_reader.specs.Formula.{tree_of, names_of};
ghost use Rattle.formula_reader.specs.Grammar.{formula, formula_said, behind_bound};
ghost use Rattle.formula_tokens.specs.Cursor.{tokens_at};

use crate::formula::{Bound, Formula, Names};
use crate::heads::{read_bound, read_coalition};
use crate::limits::MOST_NESTED;
use crate::states::read_sides;
use formula_tokens::{Cursor, FormulaCause, FormulaFault, LONGEST, Lead, next_lead};
use std::alloc::Global;

/// Reads the formula that a text spells, or the first fault of the text. What is said of a text is what it denotes:
/// `laws::formulas_are_those_that_a_text_denotes`.
#[tactic(auto, unfolding(crate::specs::Grammar::formula_said))]
pub fn read_formula(alloc: Global, text: &str) -> Result<Formula, FormulaFault>
    ensures { AnswersOrWants IsOutOfMemory tree_of result (formula_said text.now) }
{
    let text = text.as_bytes();
    if text.len() > LONGEST {
        return Err(FormulaFault::new(LONGEST as u32, FormulaCause::TooLong));
    }
    whole(
        alloc,
        Cursor {
            place: 0,
            rest: text,
        },
    )
}

fn whole(alloc: Global, cursor: Cursor<'_>) -> Result<Formula, FormulaFault>
    ensures { AnswersOrWants IsOutOfMemory tree_of result (formula (tokens_at cursor.entry)) }
{
    let (coalition, rest) = read_coalition(alloc, cursor)?;
    match read_bound(rest) {
        Ok((bound, rest)) => behind_bound(alloc, coalition, bound, rest),
        Err(fault) => Err(fault),
    }
}

// Reads the two sides, and the end of the text behind them. This `[` is not among those that are counted, so there is
// room for one more.
fn behind_bound(
    alloc: Global,
    coalition: Option<Names>,
    bound: Bound,
    cursor: Cursor<'_>,
) -> Result<Formula, FormulaFault>
    ensures { AnswersOrWants IsOutOfMemory tree_of result
        (behind_bound (option_map names_of coalition) bound (tokens_at cursor.entry)) }
{
    let (kind, left, right, rest) = read_sides(alloc, MOST_NESTED + 1, cursor)?;
    match next_lead(rest) {
        Lead::Finish(_) => Ok(Formula {
            coalition,
            bound,
            kind,
            left,
            right,
        }),
        Lead::Token(token) => Err(token.fault(FormulaCause::Unexpected)),
        Lead::Broken(fault) => Err(fault),
    }
}
