//! This module writes a value of rewards.

ghost use Rattle.std.specs.Prelude.{◌≡◌, ◌<◌, ◌≤◌, ◌^◌, ◌++◌, OnOk, decimal};
ghost use Rattle.game_model.specs.Limits.{unit};
ghost use Rattle.plan_text.specs.Fixed.{unit_digits, last_digits};
ghost use Rattle.reward_values.specs.Values.{value_text, number_text, part_text};

use game_outside::OutOfMemory;
use itoa::Buffer;
use plan_text::append;

/// Appends a value of this many units of so many places. A value of `None` is infinite. The only error is that memory
/// ran out.
pub fn append_reward_value(
    text: &mut Vec<u8>,
    places: u32,
    value: Option<u64>,
) -> Result<(), OutOfMemory>
    requires { places ≤ unit_digits }
    ensures { OnOk result (text.new.items ≡ text.old.items ++ value_text places value) }
{
    match value {
        Some(units) => append_units(text, places, units),
        None => append(text, b"infinite"),
    }
}

// Appends a number of units.
fn append_units(text: &mut Vec<u8>, places: u32, units: u64) -> Result<(), OutOfMemory>
    requires { places ≤ unit_digits }
    ensures { OnOk result (text.new.items ≡ text.old.items ++ number_text places units) }
{
    let one = units_of_one(places);
    append_whole(text, units / one)?;
    append_part(text, places, units % one)
}

/// Returns how many units of so many places the reward 1 has.
pub fn units_of_one(places: u32) -> u64
    requires { places ≤ unit_digits }
    ensures power { result ≡ 10 ^ places }
    ensures some { 1 ≤ result }
    ensures small { result ≤ unit }
{
    10u64.pow(places)
}

// Appends the whole part.
fn append_whole(text: &mut Vec<u8>, whole: u64) -> Result<(), OutOfMemory>
    ensures { OnOk result (text.new.items ≡ text.old.items ++ decimal whole) }
{
    let mut buffer = Buffer::new();
    append(text, buffer.format(whole).as_bytes())
}

// Appends what stands behind the whole part: without places it is nothing.
fn append_part(text: &mut Vec<u8>, places: u32, units: u64) -> Result<(), OutOfMemory>
    requires places { places ≤ unit_digits }
    requires part { units < 10 ^ places }
    ensures { OnOk result (text.new.items ≡ text.old.items ++ part_text places units) }
{
    if places == 0 {
        return Ok(());
    }
    append(text, b".")?;
    append_places(text, places, units)
}

// Appends the digits of a part, with their leading zeros. A number that is greater by the units of the reward 1 has a 1
// in front of these digits.
fn append_places(text: &mut Vec<u8>, places: u32, units: u64) -> Result<(), OutOfMemory>
    requires places { places ≤ unit_digits }
    requires part { units < 10 ^ places }
    ensures { OnOk result (text.new.items ≡ text.old.items ++ last_digits places units) }
{
    let mut buffer = Buffer::new();
    let digits = buffer.format(units_of_one(places) + units).as_bytes();
    append(text, &digits[1..])
}
