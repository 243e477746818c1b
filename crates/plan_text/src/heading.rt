//! The first line of a certificate is `certificate 2 N` for N states, or `certificate 1 N`.

ghost use Rattle.std.specs.Prelude.{◌≡◌, ◌≤◌, ◌+◌, ℕ, [], Err, Ok, IfOk, MatchOption, MatchResult, length};
ghost use Rattle.text_lines.specs.Limits.{most_bytes};
ghost use Rattle.text_lines.specs.Text.{lines_of, fields_of, number_of, significant};
ghost use Rattle.plan_text.specs.Said.{entries_said, entries_from, begins_with, header_said, heading_said};
ghost use Rattle.plan_text.specs.Parts.{first_with};

use crate::fault::{PlanCause, PlanFault};
use crate::version::Version;
use text_lines::{first_field, first_line, whole};

/// Returns the version of the certificate, the text after its first line, and the number of the next line, or the first
/// fault.
pub fn read_heading(text: &[u8], states: u32) -> Result<(Version, &[u8], u32), PlanFault>
    requires { length text.now ≤ most_bytes }
    ensures said { MatchResult result
        (λ behind. entries_said text.now states
        ≡ entries_from behind.0 states [] behind.2 (significant (lines_of behind.1.now)))
        (λ fault. entries_said text.now states ≡ Err fault) }
    ensures number { IfOk result (λ behind. behind.2 + length behind.1.now ≤ 1 + length text.now) }
{
    let (line, after, number) = find_first_line(text, b"certificate")?;
    match check_heading(states, line) {
        Ok(version) => Ok((version, after, number + 1)),
        Err(cause) => Err(PlanFault {
            line: number,
            cause,
        }),
    }
}

/// Returns the first line whose first field is this word, the text after it, and the number of the line. Where no line
/// begins with it, the text has no certificate of this kind.
pub fn find_first_line<'text>(
    text: &'text [u8],
    word: &[u8],
) -> Result<(&'text [u8], &'text [u8], u32), PlanFault>
    requires { length text.now ≤ most_bytes }
    ensures said { MatchResult result
        (λ found. first_with word.now 1 (significant (lines_of text.now))
        ≡ Ok (found.0.now, found.2, significant (lines_of found.1.now)))
        (λ fault. first_with word.now 1 (significant (lines_of text.now)) ≡ Err fault) }
    ensures number { IfOk result (λ found. found.2 + length found.1.now ≤ length text.now) }
{
    let mut rest = text;
    let mut number = 1u32;
    while let Some((line, after)) = first_line(rest) {
        if begins_with(word, line) {
            return Ok((line, after, number));
        }
        rest = after;
        number += 1;
    }
    Err(PlanFault {
        line: 0,
        cause: PlanCause::NoCertificate,
    })
}

// Returns whether the first field of a line is this word.
fn begins_with(word: &[u8], line: &[u8]) -> bool
    ensures { result ≡ begins_with word.now (fields_of line.now) }
{
    match first_field(line) {
        Some((name, _)) => name == word,
        None => false,
    }
}

// Returns the version and the number of states of a line that has nothing after them.
fn last_fields(line: &[u8]) -> Option<(&[u8], &[u8])>
    ensures { MatchOption result
        ((n : ℕ) → header_said n (fields_of line.now) ≡ Err PlanCause.BadLine)
        (λ r. (n : ℕ) → header_said n (fields_of line.now) ≡ heading_said n r.0.now (number_of r.1.now)) }
{
    let (_, rest) = first_field(line)?;
    let (version, rest) = first_field(rest)?;
    let (count, rest) = first_field(rest)?;
    match first_field(rest) {
        None => Some((version, count)),
        Some(_) => None,
    }
}

// Returns the version of a certificate of this many states, by its first line, or the fault of the line.
fn check_heading(states: u32, line: &[u8]) -> Result<Version, PlanCause>
    ensures { result ≡ header_said states (fields_of line.now) }
{
    let Some((name, count)) = last_fields(line) else {
        return Err(PlanCause::BadLine);
    };
    let Some(count) = whole(count) else {
        return Err(PlanCause::BadLine);
    };
    let Some(version) = Version::named(name) else {
        return Err(PlanCause::Version);
    };
    if count != u64::from(states) {
        return Err(PlanCause::StateCount);
    }
    Ok(version)
}
