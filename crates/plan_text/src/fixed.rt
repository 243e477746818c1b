//! This module writes a value as text.

ghost use Rattle.std.specs.Prelude.{◌≡◌, ◌≤◌, ◌∷◌, ◌++◌, IfOk, OnOk};
ghost use Rattle.game_model.specs.Limits.{unit};
ghost use Rattle.plan_text.specs.Fixed.{fixed, last_digits, unit_digits};

use crate::onto::append;
use game_model::UNIT;
use game_outside::OutOfMemory;
use std::alloc::Global;

/// The unit is ten to this power.
pub(crate) const UNIT_DIGITS: usize = 15;

/// Writes a value of this many units in decimal: one digit, a point and fifteen digits.
pub fn fixed_text(alloc: Global, units: u64) -> Result<Vec<u8>, OutOfMemory>
    requires { units ≤ unit }
    ensures { IfOk result (λ text. text.items ≡ fixed units) }
{
    let mut text = Vec::new(alloc);
    append_fixed(&mut text, units)?;
    Ok(text)
}

/// Appends a value of this many units in decimal.
pub fn append_fixed(text: &mut Vec<u8>, units: u64) -> Result<(), OutOfMemory>
    requires { units ≤ unit }
    ensures { OnOk result (text.new.items ≡ text.old.items ++ fixed units) }
{
    let whole = b'0' + (units / UNIT) as u8;
    append(text, &[whole, b'.'])?;
    append(text, &last_digits_of(units % UNIT))
}

// Returns the last fifteen digits of a number.
fn last_digits_of(number: u64) -> [u8; UNIT_DIGITS]
    ensures { result ≡ last_digits unit_digits number }
{
    let mut digits = [b'0'; UNIT_DIGITS];
    let mut rest = number;
    let mut place = UNIT_DIGITS;
    while place > 0 {
        place -= 1;
        digits[place] = b'0' + (rest % 10) as u8;
        rest /= 10;
    }
    digits
}
