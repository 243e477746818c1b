//! This module cuts the first line off a text.

ghost use Rattle.std.specs.Prelude.{◌≡◌, ◌<◌, ◌∷◌, [], ◌++◌, ℕ, List, None, length, take, IfSome, MatchOption};
ghost use Rattle.text_lines.specs.Text.{lines_of, is_nil, significant};
ghost use Rattle.text_lines.specs.Laws.{HasNo, IsEndOf};

use crate::fields::is_blank_line;
use memchr::memchr;

/// Returns the first line without its ending, and the bytes after the ending. It returns none at the end of the text.
pub fn first_line(text: &[u8]) -> Option<(&[u8], &[u8])>
    ensures lines { MatchOption result (text.now ≡ []) (λ r. lines_of text.now ≡ r.0.now ∷ lines_of r.1.now) }
    ensures shorter { MatchOption result (text.now ≡ []) (λ r. length r.1.now < length text.now) }
{
    if let Some(found) = ended_line(text) {
        return Some(found);
    }
    if text.is_empty() {
        return None;
    }
    Some((text, &[]))
}

/// Returns the first line that an LF ends, without its ending, and the bytes after the ending. It returns none if there
/// is no LF, and then these bytes are the front of a line that may go on.
#[inline]
pub fn ended_line(bytes: &[u8]) -> Option<(&[u8], &[u8])>
    ensures line { IfSome result (λ r. (behind : List ℕ) →
        lines_of (bytes.now ++ behind) ≡ r.0.now ∷ lines_of (r.1.now ++ behind)) }
    ensures rest { IfSome result (λ r. IsEndOf r.1.now bytes.now) }
    ensures shorter { IfSome result (λ r. length r.1.now < length bytes.now) }
    ensures none { result ≡ None → HasNo 10 bytes.now }
{
    let place = memchr(b'\n', bytes)?;
    let (_, behind) = bytes.split_at(place + 1);
    Some((without_cr(&bytes[..place]), behind))
}

/// Returns the line that an LF ends: the bytes before the LF, without the CR that may end them.
pub fn without_cr(line: &[u8]) -> &[u8]
    requires { HasNo 10 line.now }
    ensures line { (behind : List ℕ) → lines_of (line.now ++ 10 ∷ behind) ≡ result.now ∷ lines_of behind }
    ensures front { result.now ≡ take (length result.now) line.now }
{
    match line {
        [front @ .., b'\r'] => front,
        _ => line,
    }
}

/// Returns whether no line of the text has a field. It stops at the first line that has one.
pub fn only_blank(text: &[u8]) -> bool
    ensures { result ≡ is_nil (significant (lines_of text.now)) }
{
    let mut rest = text;
    while let Some((line, after)) = first_line(rest) {
        if !is_blank_line(line) {
            return false;
        }
        rest = after;
    }
    true
}
