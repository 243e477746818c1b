//! This module reads a text as tokens, one after another.

ghost use Rattle.std.specs.Prelude.{◌≡◌, ◌≤◌, ◌<◌, ◌+◌, length, take, drop, bytes_eq, option_map};
ghost use Rattle.formula_tokens.specs.Fault.{IsResult, fault_at};
ghost use Rattle.formula_tokens.specs.Reading.{next, behind, follows, is_number};
ghost use Rattle.formula_tokens.specs.Tokens.{Finish, Broken, Then, tokens_from};
ghost use Rattle.formula_tokens.specs.Limits.{longest};
ghost use Rattle.formula_tokens.specs.Cursor.{tokens_at, token_of, Leads};

use crate::cursor::Cursor;
use crate::fault::{FormulaCause, FormulaFault};
use crate::front::{Front, front_of};

/// A token has its place, its spelling, and what is left behind it.
#[derive(Clone, Copy)]
pub struct Token<'a> {
    pub place: u32,
    pub spelling: &'a [u8],
    pub after: Cursor<'a>,
}

/// A text leads to a token, its end, or bytes that form no token.
#[derive(Clone, Copy)]
pub enum Lead<'a> {
    Token(Token<'a>),
    Finish(u32),
    Broken(FormulaFault),
}

impl<'a> Token<'a> {
    /// Returns whether the token has this spelling.
    pub fn is(&self, spelling: &str) -> bool
        ensures { result ≡ bytes_eq self.now.spelling.now spelling.now }
    {
        self.spelling == spelling.as_bytes()
    }

    /// Returns whether the token is a number: it begins with a digit.
    pub fn is_number(&self) -> bool
        ensures { result ≡ is_number self.now.spelling.now }
    {
        matches!(self.spelling, [b, ..] if b.is_ascii_digit())
    }

    /// Makes a fault of this token.
    pub fn fault(&self, cause: FormulaCause) -> FormulaFault
        ensures { result ≡ fault_at self.now.place cause }
    {
        FormulaFault::new(self.place, cause)
    }
}

/// Returns what comes next.
pub fn next_lead<'a>(cursor: Cursor<'a>) -> Lead<'a>
    ensures { Leads (tokens_at cursor.entry) result }
{
    let mut place = cursor.place;
    let mut rest = cursor.rest;
    while let Some((first, others)) = rest.split_first() {
        match front_of(*first, others) {
            Front::Blank => {
                rest = others;
                place += 1;
            }
            Front::Spelling(count) => return cut(place, rest, count),
            Front::Unclosed => {
                return Lead::Broken(FormulaFault::new(
                    place + rest.len() as u32,
                    FormulaCause::End,
                ));
            }
            Front::Strange => {
                return Lead::Broken(FormulaFault::new(place, FormulaCause::Unexpected));
            }
        }
    }
    Lead::Finish(place)
}

// Cuts a token of `count` bytes from the front.
fn cut<'a>(place: u32, rest: &'a [u8], count: usize) -> Lead<'a>
    requires some { 0 < count }
    requires within { count ≤ length rest.now }
    requires short { place + length rest.now ≤ longest }
    ensures { Leads (Then place (take count rest.now) (tokens_from (place + count) 0 (drop count rest.now))) result }
{
    let (spelling, after) = rest.split_at(count);
    Lead::Token(Token {
        place,
        spelling,
        after: Cursor {
            place: place + count as u32,
            rest: after,
        },
    })
}

/// Returns the next token, which has to be there.
pub fn next_token<'a>(cursor: Cursor<'a>) -> Result<Token<'a>, FormulaFault>
    ensures { IsResult token_of result (next (tokens_at cursor.entry)) }
{
    match next_lead(cursor) {
        Lead::Token(token) => Ok(token),
        Lead::Finish(place) => Err(FormulaFault::new(place, FormulaCause::End)),
        Lead::Broken(fault) => Err(fault),
    }
}

/// Returns what is left behind this token, which has to come next.
pub fn behind<'a>(cursor: Cursor<'a>, spelling: &str) -> Result<Cursor<'a>, FormulaFault>
    ensures { IsResult tokens_at result (behind spelling.now (tokens_at cursor.entry)) }
{
    let token = next_token(cursor)?;
    if token.is(spelling) {
        Ok(token.after)
    } else {
        Err(token.fault(FormulaCause::Unexpected))
    }
}

/// Returns what is left behind this token, if it comes next.
pub fn behind_if<'a>(cursor: Cursor<'a>, spelling: &str) -> Option<Cursor<'a>>
    ensures { follows spelling.now (tokens_at cursor.entry) ≡ option_map tokens_at result }
{
    match next_lead(cursor) {
        Lead::Token(token) if token.is(spelling) => Some(token.after),
        _ => None,
    }
}
