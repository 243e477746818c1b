//! This module reads the deadlines of paths.

ghost use Rattle.std.specs.Prelude.{◌≡◌};
ghost use Rattle.formula_tokens.specs.Fault.{IsResult};
ghost use Rattle.formula_reader.specs.Grammar.{steps, deadline};
ghost use Rattle.formula_tokens.specs.Cursor.{tokens_at, token_of, read_at};

use crate::formula::PathKind;
use crate::limits::MOST_STEPS;
use formula_tokens::{Cursor, FormulaCause, FormulaFault, Token, behind_if, next_token};
use text_lines::whole;

/// Reads the number of steps that `<=` sets a path, if there is one.
pub fn read_deadline<'a>(cursor: Cursor<'a>) -> Result<(PathKind, Cursor<'a>), FormulaFault>
    ensures { IsResult (read_at (λ kind. kind)) result (deadline (tokens_at cursor.entry)) }
{
    let Some(behind_sign) = behind_if(cursor, "<=") else {
        return Ok((PathKind::Until, cursor));
    };
    let token = next_token(behind_sign)?;
    let steps = steps_in(&token)?;
    Ok((PathKind::Within(steps), token.after))
}

// Reads a whole number of steps, which are not too many.
fn steps_in(token: &Token<'_>) -> Result<u32, FormulaFault>
    ensures { IsResult (λ value. value) result (steps (token_of token.now)) }
{
    if !token.is_number() {
        return Err(token.fault(FormulaCause::Unexpected));
    }
    match whole(token.spelling) {
        Some(steps) if steps <= u64::from(MOST_STEPS) => Ok(steps as u32),
        _ => Err(token.fault(FormulaCause::BadSteps)),
    }
}
