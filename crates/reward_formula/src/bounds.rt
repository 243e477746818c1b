//! This module reads the reward of a formula: its name, if it has one, and the bound on it.

ghost use Rattle.std.specs.Prelude.{◌≡◌, Some, option_map};
ghost use Rattle.game_outside.specs.Answers.{AnswersOrWants};
ghost use Rattle.formula_tokens.specs.Fault.{IsResult, IsOutOfMemory};
ghost use Rattle.formula_tokens.specs.Cursor.{tokens_at, token_of, read_at};
ghost use Rattle.reward_formula.specs.Grammar.{threshold, threshold_cause, comparison, compared, asked, bare_bound, named_bound, name_behind, quoted, braced, with_name, named_reward, reward};
ghost use Rattle.reward_formula.specs.inside.Views.{reward_at};

use crate::formula::RewardBound;
use formula_reader::{Comparison, unquoted};
use formula_tokens::{Cursor, FormulaCause, FormulaFault, Token, behind, behind_if, next_token};
use game_outside::Name;
use rewards_reader::{Amount, RewardsCause, read_amount};
use std::alloc::Global;

/// This is the name of a reward, if it has one, the bound on it, and what is left behind them, or the first fault.
pub type ReadReward<'a> = Result<(Option<Name>, RewardBound, Cursor<'a>), FormulaFault>;

// This is a bound, and what is left behind it, or the first fault.
type ReadBound<'a> = Result<(RewardBound, Cursor<'a>), FormulaFault>;

/// Reads a reward that begins with this token: `R`, `Rmax` or `Rmin`.
pub fn read_reward<'a>(alloc: Global, token: Token<'a>) -> ReadReward<'a>
    ensures { AnswersOrWants IsOutOfMemory reward_at result (reward (token_of token.entry)) }
{
    match name_behind(&token) {
        Some(inside) => read_named_reward(alloc, inside),
        None => match read_bare_bound(token) {
            Ok((bound, rest)) => Ok((None, bound, rest)),
            Err(fault) => Err(fault),
        },
    }
}

// Returns what is left behind `R` and `{`, if these two come here.
fn name_behind<'a>(token: &Token<'a>) -> Option<Cursor<'a>>
    ensures { name_behind (token_of token.now) ≡ option_map tokens_at result }
{
    if token.is("R") {
        behind_if(token.after, "{")
    } else {
        None
    }
}

// Reads a name, the `}` behind it, and a bound.
fn read_named_reward<'a>(alloc: Global, cursor: Cursor<'a>) -> ReadReward<'a>
    ensures { AnswersOrWants IsOutOfMemory reward_at result (named_reward (tokens_at cursor.entry)) }
{
    match read_name(alloc, cursor) {
        Ok((name, rest)) => read_behind_name(name, rest),
        Err(fault) => Err(fault),
    }
}

// Reads the bound behind this name.
fn read_behind_name<'a>(name: Name, cursor: Cursor<'a>) -> ReadReward<'a>
    ensures { AnswersOrWants IsOutOfMemory reward_at result
        (with_name (Some name) (named_bound (tokens_at cursor.entry))) }
{
    match read_named_bound(cursor) {
        Ok((bound, rest)) => Ok((Some(name), bound, rest)),
        Err(fault) => Err(fault),
    }
}

// Reads a quoted name, and the `}` behind it.
fn read_name<'a>(alloc: Global, cursor: Cursor<'a>) -> Result<(Name, Cursor<'a>), FormulaFault>
    ensures { AnswersOrWants IsOutOfMemory (read_at (λ name. name)) result (braced (tokens_at cursor.entry)) }
{
    let token = next_token(cursor)?;
    let name = name_in(alloc, &token)?;
    let rest = behind(token.after, "}")?;
    Ok((name, rest))
}

fn name_in(alloc: Global, token: &Token<'_>) -> Result<Name, FormulaFault>
    ensures { AnswersOrWants IsOutOfMemory (λ name. name) result (quoted (token_of token.now)) }
{
    if let [b'"', ..] = token.spelling {
        let name = unquoted(alloc, token.spelling)?;
        Ok(name)
    } else {
        Err(token.fault(FormulaCause::Unexpected))
    }
}

// Reads the bound of a reward without a name, which begins with this token.
fn read_bare_bound<'a>(token: Token<'a>) -> ReadBound<'a>
    ensures { IsResult (read_at (λ bound. bound)) result (bare_bound (token_of token.entry)) }
{
    if token.is("Rmax") {
        Ok((RewardBound::AskMax, behind(token.after, "=?")?))
    } else if token.is("Rmin") {
        Ok((RewardBound::AskMin, behind(token.after, "=?")?))
    } else {
        read_comparison(next_token(token.after)?)
    }
}

// Reads the bound behind a name.
fn read_named_bound<'a>(cursor: Cursor<'a>) -> ReadBound<'a>
    ensures { IsResult (read_at (λ bound. bound)) result (named_bound (tokens_at cursor.entry)) }
{
    let token = next_token(cursor)?;
    if token.is("max") {
        Ok((RewardBound::AskMax, behind(token.after, "=?")?))
    } else if token.is("min") {
        Ok((RewardBound::AskMin, behind(token.after, "=?")?))
    } else {
        read_comparison(token)
    }
}

// Reads the sign of a comparison, which is this token, and a threshold.
fn read_comparison<'a>(sign: Token<'a>) -> ReadBound<'a>
    ensures { IsResult (read_at (λ bound. bound)) result (compared (token_of sign.entry)) }
{
    let comparison = comparison_in(&sign)?;
    let token = next_token(sign.after)?;
    let threshold = threshold_in(&token)?;
    Ok((RewardBound::with(comparison, threshold), token.after))
}

fn comparison_in(sign: &Token<'_>) -> Result<Comparison, FormulaFault>
    ensures { IsResult (λ comparison. comparison) result (comparison (token_of sign.now)) }
{
    if sign.is(">=") {
        Ok(Comparison::AtLeast)
    } else if sign.is(">") {
        Ok(Comparison::Above)
    } else if sign.is("<=") {
        Ok(Comparison::AtMost)
    } else if sign.is("<") {
        Ok(Comparison::Below)
    } else {
        Err(sign.fault(FormulaCause::Unexpected))
    }
}

// Reads a number that is at most the greatest reward.
fn threshold_in(token: &Token<'_>) -> Result<Amount, FormulaFault>
    ensures { IsResult (λ value. value) result (threshold (token_of token.now)) }
{
    if !token.is_number() {
        return Err(token.fault(FormulaCause::Unexpected));
    }
    match read_amount(token.spelling) {
        Ok(value) => Ok(value),
        Err(cause) => Err(token.fault(threshold_cause(cause))),
    }
}

// Returns the cause why a number is no threshold: its spelling is at fault, or else it is too large.
fn threshold_cause(cause: RewardsCause) -> FormulaCause
    ensures { result ≡ threshold_cause cause }
{
    match cause {
        RewardsCause::Number(fault) => FormulaCause::BadNumber(fault),
        _ => FormulaCause::ThresholdOutOfRange,
    }
}
