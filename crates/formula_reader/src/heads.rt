//! This module reads what comes before the `[` of a formula: a coalition and a bound.

ghost use Rattle.std.specs.Prelude.{◌≡◌, ◌++◌, ◌∷◌, [], OnOk, IfErr, option_map};
ghost use Rattle.game_outside.specs.Answers.{AnswersOrWants};
ghost use Rattle.formula_tokens.specs.Fault.{IsResult, IsOutOfMemory};
ghost use Rattle.formula_reader.specs.Formula.{names_of};
ghost use Rattle.formula_reader.specs.inside.Bounds.{bound_with};
ghost use Rattle.formula_reader.specs.Grammar.{names, coalition, threshold, comparison, bound, inner_bound, compared};
ghost use Rattle.formula_tokens.specs.Reading.{is_word};
ghost use Rattle.formula_tokens.specs.Cursor.{tokens_at, token_of, read_at};

use crate::formula::{Bound, Comparison, Names};
use formula_tokens::{Cursor, FormulaCause, FormulaFault, Token, behind, behind_if, next_token};
use fractions::{Frac, NumberFault, read_number};
use game_outside::Name;
use std::alloc::Global;

/// This is a bound, and what is left behind it, or the first fault.
pub type ReadBound<'a> = Result<(Bound, Cursor<'a>), FormulaFault>;

/// Reads the names of a coalition, if there is one.
pub fn read_coalition<'a>(
    alloc: Global,
    cursor: Cursor<'a>,
) -> Result<(Option<Names>, Cursor<'a>), FormulaFault>
    ensures { AnswersOrWants IsOutOfMemory (read_at (option_map names_of)) result (coalition (tokens_at cursor.entry)) }
{
    let Some(inside) = behind_if(cursor, "<<") else {
        return Ok((None, cursor));
    };
    if let Some(after) = behind_if(inside, ">>") {
        let list = Vec::new(alloc);
        return Ok((Some(Names { list }), after));
    }
    let (names, after) = read_names(alloc, inside)?;
    Ok((Some(names), after))
}

// Reads one or more names, and `>>` behind them.
fn read_names<'a>(alloc: Global, cursor: Cursor<'a>) -> Result<(Names, Cursor<'a>), FormulaFault>
    ensures { AnswersOrWants IsOutOfMemory (read_at names_of) result (names (tokens_at cursor.entry)) }
{
    let mut list = Vec::new(alloc);
    let mut rest = cursor;
    loop {
        let word = next_token(rest)?;
        if !begins_word(word.spelling) {
            return Err(word.fault(FormulaCause::Unexpected));
        }
        add_name(alloc, &mut list, word.spelling)?;
        let sign = next_token(word.after)?;
        if sign.is(">>") {
            return Ok((Names { list }, sign.after));
        }
        if !sign.is(",") {
            return Err(sign.fault(FormulaCause::Unexpected));
        }
        rest = sign.after;
    }
}

fn begins_word(spelling: &[u8]) -> bool
    ensures { result ≡ is_word spelling.now }
{
    matches!(spelling, [b, ..] if b.is_ascii_alphabetic() || *b == b'_')
}

fn add_name(alloc: Global, list: &mut Vec<Name>, word: &[u8]) -> Result<(), FormulaFault>
    ensures ok { OnOk result (list.new.items ≡ list.old.items ++ word.now ∷ []) }
    ensures err { IfErr result IsOutOfMemory }
{
    let Ok(name) = Name::from_bytes(alloc, word) else {
        return Err(FormulaFault::new(0, FormulaCause::OutOfMemory));
    };
    match list.push(name) {
        Ok(()) => Ok(()),
        Err(_) => Err(FormulaFault::new(0, FormulaCause::OutOfMemory)),
    }
}

/// Reads a bound on the probability.
pub fn read_bound<'a>(cursor: Cursor<'a>) -> ReadBound<'a>
    ensures { IsResult (read_at (λ bound. bound)) result (bound (tokens_at cursor.entry)) }
{
    let token = next_token(cursor)?;
    if token.is("P") {
        read_comparison(token.after)
    } else if token.is("Pmax") {
        Ok((Bound::AskMax, behind(token.after, "=?")?))
    } else if token.is("Pmin") {
        Ok((Bound::AskMin, behind(token.after, "=?")?))
    } else {
        Err(token.fault(FormulaCause::Unexpected))
    }
}

/// Reads the bound of a formula inside, which compares with a threshold.
pub fn read_inner_bound<'a>(cursor: Cursor<'a>) -> ReadBound<'a>
    ensures { IsResult (read_at (λ bound. bound)) result (inner_bound (tokens_at cursor.entry)) }
{
    let token = next_token(cursor)?;
    if token.is("P") {
        read_comparison(token.after)
    } else if token.is("Pmax") || token.is("Pmin") {
        Err(token.fault(FormulaCause::AskInside))
    } else {
        Err(token.fault(FormulaCause::Unexpected))
    }
}

fn read_comparison<'a>(cursor: Cursor<'a>) -> ReadBound<'a>
    ensures { IsResult (read_at (λ bound. bound)) result (comparison (tokens_at cursor.entry)) }
{
    let sign = next_token(cursor)?;
    if sign.is(">=") {
        read_threshold(Comparison::AtLeast, sign.after)
    } else if sign.is(">") {
        read_threshold(Comparison::Above, sign.after)
    } else if sign.is("<=") {
        read_threshold(Comparison::AtMost, sign.after)
    } else if sign.is("<") {
        read_threshold(Comparison::Below, sign.after)
    } else {
        Err(sign.fault(FormulaCause::Unexpected))
    }
}

// Reads the threshold of a comparison.
fn read_threshold<'a>(
    comparison: Comparison,
    cursor: Cursor<'a>,
) -> Result<(Bound, Cursor<'a>), FormulaFault>
    ensures { IsResult (read_at (λ bound. bound)) result (compared (bound_with comparison) (tokens_at cursor.entry)) }
{
    let token = next_token(cursor)?;
    let threshold = threshold_in(&token)?;
    Ok((comparison.bound(threshold), token.after))
}

// Reads a number that is at most 1.
fn threshold_in(token: &Token<'_>) -> Result<Frac, FormulaFault>
    ensures { IsResult (λ value. value) result (threshold (token_of token.now)) }
{
    if !token.is_number() {
        return Err(token.fault(FormulaCause::Unexpected));
    }
    match read_number(token.spelling) {
        Ok(value) if value.num() > value.den() => {
            Err(token.fault(FormulaCause::ThresholdOutOfRange))
        }
        Ok(value) => Ok(value),
        Err(NumberFault::TooLarge) => Err(token.fault(FormulaCause::ThresholdOutOfRange)),
        Err(fault) => Err(token.fault(FormulaCause::BadNumber(fault))),
    }
}
