//! The first line of a certificate of rewards is `rewards 1 D N` for D places and N states.

ghost use Rattle.std.specs.Prelude.{◌≡◌, ◌≤◌, ◌+◌, ℕ, [], Err, IfOk, MatchOption, MatchResult, length};
ghost use Rattle.text_lines.specs.Limits.{most_bytes};
ghost use Rattle.text_lines.specs.Text.{lines_of, fields_of, number_of, significant};
ghost use Rattle.plan_text.specs.Fixed.{unit_digits};
ghost use Rattle.plan_text.specs.Said.{entries_from_by};
ghost use Rattle.reward_text.specs.Said.{rewards_said, reward_line_said, reward_header_said, numbers_said, with_places};

use plan_text::{PlanCause, PlanFault, find_first_line};
use text_lines::{first_field, whole};

/// A value has at most this many places.
pub const MOST_PLACES: u64 = 15;

/// Returns the places of the certificate, the text after its first line, and the number of the next line, or the first
/// fault.
pub fn read_heading(text: &[u8], states: u32) -> Result<(u32, &[u8], u32), PlanFault>
    requires { length text.now ≤ most_bytes }
    ensures said { MatchResult result
        (λ behind. rewards_said text.now states ≡ with_places behind.0
        (entries_from_by (reward_line_said behind.0) states [] behind.2 (significant (lines_of behind.1.now))))
        (λ fault. rewards_said text.now states ≡ Err fault) }
    ensures number { IfOk result (λ behind. behind.2 + length behind.1.now ≤ 1 + length text.now) }
    ensures places { IfOk result (λ behind. behind.0 ≤ unit_digits) }
{
    let (line, after, number) = find_first_line(text, b"rewards")?;
    match check_heading(states, line) {
        Ok(places) => Ok((places, after, number + 1)),
        Err(cause) => Err(PlanFault {
            line: number,
            cause,
        }),
    }
}

// Returns the version, the places and the number of states of a line that has nothing after them.
fn last_fields(line: &[u8]) -> Option<(&[u8], &[u8], &[u8])>
    ensures { MatchOption result
        ((n : ℕ) → reward_header_said n (fields_of line.now) ≡ Err PlanCause.BadLine)
        (λ r. (n : ℕ) → reward_header_said n (fields_of line.now)
        ≡ numbers_said n r.0.now (number_of r.1.now) (number_of r.2.now)) }
{
    let (_, rest) = first_field(line)?;
    let (version, rest) = first_field(rest)?;
    let (places, rest) = first_field(rest)?;
    let (count, rest) = first_field(rest)?;
    match first_field(rest) {
        None => Some((version, places, count)),
        Some(_) => None,
    }
}

// Returns the places of a certificate of this many states, by its first line, or the fault of the line.
fn check_heading(states: u32, line: &[u8]) -> Result<u32, PlanCause>
    ensures said { result ≡ reward_header_said states (fields_of line.now) }
    ensures places { IfOk result (λ places. places ≤ unit_digits) }
{
    let Some((version, places, count)) = last_fields(line) else {
        return Err(PlanCause::BadLine);
    };
    let Some(places) = whole(places) else {
        return Err(PlanCause::BadLine);
    };
    let Some(count) = whole(count) else {
        return Err(PlanCause::BadLine);
    };
    if version != b"1".as_slice() {
        return Err(PlanCause::Version);
    }
    if places > MOST_PLACES {
        return Err(PlanCause::Places);
    }
    if count != u64::from(states) {
        return Err(PlanCause::StateCount);
    }
    Ok(places as u32)
}
