//! This module finds what is at the front of a text.

ghost use Rattle.std.specs.Prelude.{◌≡◌, ◌≤◌, ◌<◌, ◌+◌, length};
ghost use Rattle.formula_tokens.specs.Cursor.{Fits};
ghost use Rattle.formula_tokens.specs.Limits.{longest};
ghost use Rattle.formula_tokens.specs.Tokens.{in_number, is_long_sign, short_sign, word_length, number_length, name_from, sign_from, is_blank, front_from};

use crate::limits::LONGEST_NAME;

/// The front of a text is a blank byte, a token of some number of bytes, a quoted name that does not end, or bytes that
/// begin no token.
#[derive(Clone, Copy, Debug, PartialEq, Eq)]
pub enum Front {
    Blank,
    Spelling(usize),
    Unclosed,
    Strange,
}

/// Returns the front of a text that begins with this byte.
pub fn front_of(first: u8, rest: &[u8]) -> Front
    requires { length rest.now ≤ longest }
    ensures value { result ≡ front_from first rest.now }
    ensures within { Fits result (length rest.now + 1) }
{
    if blank(first, rest) {
        Front::Blank
    } else if first.is_ascii_alphabetic() || first == b'_' {
        Front::Spelling(word_length(rest) + 1)
    } else if first.is_ascii_digit() {
        Front::Spelling(number_length(first, rest) + 1)
    } else if first == b'"' {
        quoted_name(rest)
    } else {
        sign(first, rest)
    }
}

fn blank(first: u8, rest: &[u8]) -> bool
    ensures { result ≡ is_blank first rest.now }
{
    match first {
        b' ' | b'\t' | b'\n' => true,
        b'\r' => matches!(rest, [b'\n', ..]),
        _ => false,
    }
}

fn word_length(rest: &[u8]) -> usize
    ensures value { result ≡ word_length rest.now }
    ensures within { result ≤ length rest.now }
{
    let mut left = rest;
    let mut count = 0;
    while let [b, after @ ..] = left {
        if !(b.is_ascii_alphanumeric() || *b == b'_') {
            return count;
        }
        left = after;
        count += 1;
    }
    count
}

fn goes_on(before: u8, b: u8) -> bool
    ensures { result ≡ in_number before b }
{
    match b {
        b'.' | b'/' => true,
        b'+' | b'-' => before == b'e' || before == b'E',
        _ => b.is_ascii_alphanumeric(),
    }
}

fn number_length(first: u8, rest: &[u8]) -> usize
    ensures value { result ≡ number_length first rest.now }
    ensures within { result ≤ length rest.now }
{
    let mut before = first;
    let mut left = rest;
    let mut count = 0;
    while let [b, after @ ..] = left {
        if !goes_on(before, *b) {
            return count;
        }
        before = *b;
        left = after;
        count += 1;
    }
    count
}

fn quoted_name(rest: &[u8]) -> Front
    ensures value { result ≡ name_from 0 rest.now }
    ensures within { Fits result (length rest.now + 1) }
{
    let mut left = rest;
    let mut read = 0;
    while let [b, after @ ..] = left {
        if *b == b'"' {
            return if read == 0 {
                Front::Strange
            } else {
                Front::Spelling(read + 2)
            };
        }
        if !(b.is_ascii_graphic() && read < LONGEST_NAME) {
            return Front::Strange;
        }
        left = after;
        read += 1;
    }
    Front::Unclosed
}

fn sign(first: u8, rest: &[u8]) -> Front
    ensures value { result ≡ sign_from first rest.now }
    ensures within { Fits result (length rest.now + 1) }
{
    match rest {
        [second, ..] if long_sign(first, *second) => Front::Spelling(2),
        _ => one_sign(first),
    }
}

fn long_sign(first: u8, second: u8) -> bool
    ensures { result ≡ is_long_sign first second }
{
    match first {
        b'<' => second == b'<' || second == b'=',
        b'>' => second == b'>' || second == b'=',
        b'=' => second == b'>' || second == b'?',
        _ => false,
    }
}

fn one_sign(first: u8) -> Front
    ensures value { result ≡ short_sign first }
    ensures within { Fits result 1 }
{
    match first {
        b'<' | b'>' | b',' => Front::Spelling(1),
        b'[' | b']' | b'(' | b')' | b'{' | b'}' => Front::Spelling(1),
        b'!' | b'&' | b'|' => Front::Spelling(1),
        _ => Front::Strange,
    }
}
