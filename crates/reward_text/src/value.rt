//! This module reads a value of rewards.

ghost use Rattle.std.specs.Prelude.{◌≡◌, ◌≤◌, option_map};
ghost use Rattle.text_lines.specs.Text.{saturated};
ghost use Rattle.plan_text.specs.Fixed.{unit_digits};
ghost use Rattle.reward_text.specs.Values.{plain_number, part_in, units_in, value_in, is_value};

use game_model::UNIT;
use reward_values::units_of_one;
use text_lines::whole;

/// Reads a value of so many places: a number of units, or the word `infinite`. A number that is too great for 64 bits
/// is the greatest one of 64 bits.
pub fn value_in(places: u32, field: &[u8]) -> Option<Option<u64>>
    requires { places ≤ unit_digits }
    ensures { result ≡ option_map (option_map saturated) (value_in places field.now) }
{
    if field == b"infinite".as_slice() {
        Some(None)
    } else {
        Some(Some(units_in(places, field)?))
    }
}

/// Returns whether a value that is a number has at most 10^15 units.
pub fn is_value(value: Option<u64>) -> bool
    ensures { result ≡ is_value value }
{
    match value {
        None => true,
        Some(units) => units <= UNIT,
    }
}

// Reads a number of units: a whole part, and with places above 0 a point and as many digits.
fn units_in(places: u32, field: &[u8]) -> Option<u64>
    requires { places ≤ unit_digits }
    ensures { result ≡ option_map saturated (units_in places field.now) }
{
    if places == 0 {
        return plain_number(field);
    }
    let front = field.len().saturating_sub(places as usize + 1);
    let (rewards, part) = field.split_at(front);
    let rewards = plain_number(rewards)?;
    let part = part_in(part)?;
    Some(
        rewards
            .saturating_mul(units_of_one(places))
            .saturating_add(part),
    )
}

// Reads a whole number with no zero in front of another digit.
fn plain_number(bytes: &[u8]) -> Option<u64>
    ensures { result ≡ option_map saturated (plain_number bytes.now) }
{
    match bytes {
        [b'0', _, ..] => None,
        _ => whole(bytes),
    }
}

// Reads a point and digits.
fn part_in(bytes: &[u8]) -> Option<u64>
    ensures { result ≡ option_map saturated (part_in bytes.now) }
{
    match bytes {
        [b'.', digits @ ..] => whole(digits),
        _ => None,
    }
}
