//! This module reads numbers as tools write them.

ghost use Rattle.std.specs.Prelude.{◌≡◌, ◌==◌, ◌<◌, Some, None, MatchOption, IfSome, is_some, position, length};
ghost use Rattle.text_lines.specs.Text.{fields_of};
ghost use Rattle.values_reader.specs.Lines.{is_fraction, is_number, is_value};
ghost use Rattle.values_reader.specs.Values.{IsProbability};

use text_lines::{first_field, split_at_first, whole};

// Returns the float that the digits write.
fn float_of(digits: &[u8]) -> f64 {
    fast_float::parse(digits).unwrap_or(0.0)
}

// Returns the quotient of two whole numbers with `/` between them.
fn fraction(field: &[u8]) -> Option<f64>
    ensures { is_some result ≡ is_fraction field.now }
{
    let Some((front, back)) = split_at_first(b'/', field) else {
        return None;
    };
    if whole(front).is_none() || whole(back).is_none() {
        return None;
    }
    Some(float_of(front) / float_of(back))
}

// Returns the number that a field spells.
fn number(field: &[u8]) -> Option<f64>
    ensures { is_some result ≡ is_number field.now }
{
    match fast_float::parse(field) {
        Ok(value) => Some(value),
        Err(_) => fraction(field),
    }
}

// Returns a value from 0 to 1: what is above counts as 1, and what is below, or no number, as 0.
fn bounded(value: f64) -> f64
    ensures { IsProbability result }
{
    if value > 1.0 {
        1.0
    } else if value > 0.0 {
        value
    } else {
        0.0
    }
}

/// Returns the number that is the one field of some bytes, as a value from 0 to 1.
pub fn value_in(bytes: &[u8]) -> Option<f64>
    ensures spelled { is_some result ≡ is_value bytes.now }
    ensures bounds { IfSome result IsProbability }
{
    let Some((field, rest)) = first_field(bytes) else {
        return None;
    };
    if first_field(rest).is_some() {
        return None;
    }
    match number(field) {
        Some(value) => Some(bounded(value)),
        None => None,
    }
}
