//! This module parts bytes at the first occurrence of a byte.

ghost use Rattle.std.specs.Prelude.{◌≡◌, ◌==◌, ◌<◌, Some, None, MatchOption, IfSome, position, length};
ghost use Rattle.text_lines.specs.Parts.{split_first};

/// Returns the bytes before the first occurrence of this byte, and the bytes after it. It returns none if the byte does
/// not occur.
pub fn split_at_first(x: u8, bytes: &[u8]) -> Option<(&[u8], &[u8])>
    ensures { MatchOption result (split_first x bytes.now ≡ None)
        (λ r. split_first x bytes.now ≡ Some (r.0.now, r.1.now)) }
{
    let place = place_of(x, bytes)?;
    let (front, _) = bytes.split_at(place);
    let (_, back) = bytes.split_at(place + 1);
    Some((front, back))
}

fn place_of(x: u8, bytes: &[u8]) -> Option<usize>
    ensures place { result ≡ position (λ b. b == x) bytes.now }
    ensures within { IfSome result (λ place. place < length bytes.now) }
{
    bytes.iter().position(|b| *b == x)
}
