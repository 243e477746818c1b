//! This module reads state formulas, the formulas inside them and their paths.

ghost use Rattle.std.specs.Prelude.{◌≡◌, MatchResult, option_map};
ghost use Rattle.game_outside.specs.Answers.{AnswersOrWants};
ghost use Rattle.formula_tokens.specs.Fault.{IsOutOfMemory};
ghost use Rattle.formula_reader.specs.Formula.{state_of, names_of};
ghost use Rattle.formula_reader.specs.Grammar.{plain, begins_formula, unary, inner, sides, nested, implied, right_side, reached, path};
ghost use Rattle.formula_tokens.specs.Reading.{unquoted};
ghost use Rattle.formula_reader.specs.inside.Levels.{level_of, operand_of};
ghost use Rattle.formula_tokens.specs.Cursor.{tokens_at, token_of, read_at};
ghost use Rattle.formula_reader.specs.inside.Paths.{path_at};

use crate::deadlines::read_deadline;
use crate::formula::{PathKind, StateFormula};
use crate::heads::{read_coalition, read_inner_bound};
use crate::levels::{Level, inner, negation};
use formula_tokens::{Cursor, FormulaCause, FormulaFault, Token, behind, behind_if, next_token};
use game_outside::Name;
use std::alloc::Global;

/// This is a state formula, and what is left behind it, or the first fault.
pub type ReadState<'a> = Result<(StateFormula, Cursor<'a>), FormulaFault>;

/// This is the kind of a path, its two sides, and what is left behind it, or the first fault.
pub type ReadPath<'a> = Result<(PathKind, StateFormula, StateFormula, Cursor<'a>), FormulaFault>;

// Reads `true`, `false` or a quoted name.
fn plain_state<'a>(alloc: Global, token: Token<'a>) -> ReadState<'a>
    ensures { AnswersOrWants IsOutOfMemory (read_at state_of) result (plain (token_of token.entry)) }
{
    if token.is("true") {
        Ok((StateFormula::True, token.after))
    } else if token.is("false") {
        Ok((StateFormula::False, token.after))
    } else if let [b'"', ..] = token.spelling {
        let name = unquoted(alloc, token.spelling)?;
        Ok((StateFormula::Label(name), token.after))
    } else {
        Err(token.fault(FormulaCause::Unexpected))
    }
}

/// Returns the name that a quoted name quotes: the bytes between the first and the last. The only error is that memory
/// ran out.
pub fn unquoted(alloc: Global, spelling: &[u8]) -> Result<Name, FormulaFault>
    ensures { MatchResult result (λ name. name ≡ unquoted spelling.now) IsOutOfMemory }
{
    let name = match spelling {
        [_, name @ .., _] => name,
        _ => &[],
    };
    match Name::from_bytes(alloc, name) {
        Ok(name) => Ok(name),
        Err(_) => Err(FormulaFault::new(0, FormulaCause::OutOfMemory)),
    }
}

// Reads operands of a level, with its sign between them, if `room` more `!`, `(` and `[` may be open.
#[tactic(auto, using(crate::proofs::Joining::operands))]
#[cycle(state)]
fn level_state<'a>(alloc: Global, level: Level, room: u32, cursor: Cursor<'a>) -> ReadState<'a>
    ensures { AnswersOrWants IsOutOfMemory (read_at state_of) result
        (level_of level (unary (nested room)) (tokens_at cursor.entry)) }
{
    let (mut left, mut rest) = operand_state(alloc, level, room, cursor)?;
    while let Some(after) = behind_if(rest, level.sign()) {
        let (right, behind_right) = operand_state(alloc, level, room, after)?;
        left = level.join(alloc, left, right)?;
        rest = behind_right;
    }
    Ok((left, rest))
}

// Reads an operand between the signs of a level.
#[cycle(state)]
fn operand_state<'a>(alloc: Global, level: Level, room: u32, cursor: Cursor<'a>) -> ReadState<'a>
    ensures { AnswersOrWants IsOutOfMemory (read_at state_of) result
        (operand_of level (unary (nested room)) (tokens_at cursor.entry)) }
{
    match level {
        Level::Implication => level_state(alloc, Level::Disjunction, room, cursor),
        Level::Disjunction => level_state(alloc, Level::Conjunction, room, cursor),
        Level::Conjunction => unary_state(alloc, room, cursor),
    }
}

#[cycle(state)]
fn unary_state<'a>(alloc: Global, room: u32, cursor: Cursor<'a>) -> ReadState<'a>
    ensures { AnswersOrWants IsOutOfMemory (read_at state_of) result (unary (nested room) (tokens_at cursor.entry)) }
{
    let token = next_token(cursor)?;
    if token.is("!") || token.is("(") {
        nested_state(alloc, room, token)
    } else if begins_formula(&token) {
        inner_state(alloc, room, cursor)
    } else {
        plain_state(alloc, token)
    }
}

/// Returns whether the token begins a formula inside: `P`, `Pmax`, `Pmin` or `<<`.
pub fn begins_formula(token: &Token<'_>) -> bool
    ensures { result ≡ begins_formula (token_of token.now) }
{
    token.is("P") || token.is("Pmax") || token.is("Pmin") || token.is("<<")
}

// Reads what a `!` or a `(` begins.
#[tactic(auto, using(crate::proofs::Joining::nested_within, crate::proofs::Joining::nested_without))]
#[cycle(state)]
fn nested_state<'a>(alloc: Global, room: u32, token: Token<'a>) -> ReadState<'a>
    ensures { AnswersOrWants IsOutOfMemory (read_at state_of) result ((nested room).state (token_of token.entry)) }
{
    if room == 0 {
        return Err(token.fault(FormulaCause::TooDeep));
    }
    if token.is("!") {
        let (state, rest) = unary_state(alloc, room - 1, token.after)?;
        Ok((negation(alloc, state)?, rest))
    } else {
        let (state, rest) = read_state(alloc, room - 1, token.after)?;
        let rest = behind(rest, ")")?;
        Ok((state, rest))
    }
}

// Reads a formula inside.
#[cycle(state)]
fn inner_state<'a>(alloc: Global, room: u32, cursor: Cursor<'a>) -> ReadState<'a>
    ensures { AnswersOrWants IsOutOfMemory (read_at state_of) result (inner (nested room) (tokens_at cursor.entry)) }
{
    let (coalition, rest) = read_coalition(alloc, cursor)?;
    match read_inner_bound(rest) {
        Ok((bound, rest)) => {
            let (kind, left, right, rest) = read_sides(alloc, room, rest)?;
            let state = inner(alloc, coalition, bound, kind, left, right)?;
            Ok((state, rest))
        }
        Err(fault) => Err(fault),
    }
}

/// Reads the path between `[` and `]`, if `room` more `!`, `(` and `[` may be open, this `[` among them.
#[tactic(auto, using(crate::proofs::Joining::path_within, crate::proofs::Joining::path_without))]
#[cycle(state)]
pub fn read_sides<'a>(alloc: Global, room: u32, cursor: Cursor<'a>) -> ReadPath<'a>
    ensures { AnswersOrWants IsOutOfMemory path_at result (sides (nested room) (tokens_at cursor.entry)) }
{
    let token = next_token(cursor)?;
    if !token.is("[") {
        return Err(token.fault(FormulaCause::Unexpected));
    }
    if room == 0 {
        return Err(token.fault(FormulaCause::TooDeep));
    }
    let (kind, left, right, rest) = read_path(alloc, room - 1, token.after)?;
    let rest = behind(rest, "]")?;
    Ok((kind, left, right, rest))
}

// Reads a path. `F`, `X` and `G` have `true` on the left.
#[cycle(state)]
fn read_path<'a>(alloc: Global, room: u32, cursor: Cursor<'a>) -> ReadPath<'a>
    ensures { AnswersOrWants IsOutOfMemory path_at result
        (path (implied (unary (nested room))) (tokens_at cursor.entry)) }
{
    let token = next_token(cursor)?;
    if token.is("F") {
        return read_reached(alloc, room, StateFormula::True, token.after);
    }
    if token.is("X") {
        return read_right(alloc, room, PathKind::Next, StateFormula::True, token.after);
    }
    if token.is("G") {
        return read_right(
            alloc,
            room,
            PathKind::Always,
            StateFormula::True,
            token.after,
        );
    }
    let (left, rest) = read_state(alloc, room, cursor)?;
    let rest = behind(rest, "U")?;
    read_reached(alloc, room, left, rest)
}

// Reads what comes behind `F` or `U`.
#[cycle(state)]
fn read_reached<'a>(
    alloc: Global,
    room: u32,
    left: StateFormula,
    cursor: Cursor<'a>,
) -> ReadPath<'a>
    ensures { AnswersOrWants IsOutOfMemory path_at result
        (reached (implied (unary (nested room))) (state_of left) (tokens_at cursor.entry)) }
{
    match read_deadline(cursor) {
        Ok((kind, rest)) => read_right(alloc, room, kind, left, rest),
        Err(fault) => Err(fault),
    }
}

/// Reads a state formula, if `room` more `!`, `(` and `[` may be open in it.
#[cycle(state)]
pub fn read_state<'a>(alloc: Global, room: u32, cursor: Cursor<'a>) -> ReadState<'a>
    ensures { AnswersOrWants IsOutOfMemory (read_at state_of) result
        (implied (unary (nested room)) (tokens_at cursor.entry)) }
{
    level_state(alloc, Level::Implication, room, cursor)
}

// Reads the right side of a path.
#[cycle(state)]
fn read_right<'a>(
    alloc: Global,
    room: u32,
    kind: PathKind,
    left: StateFormula,
    cursor: Cursor<'a>,
) -> ReadPath<'a>
    ensures { AnswersOrWants IsOutOfMemory path_at result
        (right_side (implied (unary (nested room))) kind (state_of left) (tokens_at cursor.entry)) }
{
    let (right, rest) = read_state(alloc, room, cursor)?;
    Ok((kind, left, right, rest))
}
