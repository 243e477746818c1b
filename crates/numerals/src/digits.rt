//! This module computes a number from its digits.

ghost use Rattle.std.specs.Prelude.{◌≡◌, ◌≤◌, ◌+◌, ◌*◌, ◌^◌, true, length};
ghost use Rattle.text_lines.specs.Text.{all_digits, value_onto};
ghost use Rattle.numerals.specs.Limits.{most_digits};

/// Returns the number whose digits are those of `before`, followed by these.
pub fn digits_onto(before: u128, digits: &[u8]) -> u128
    requires digits { all_digits digits.now ≡ true }
    requires small { (before + 1) * 10 ^ length digits.now ≤ 10 ^ most_digits }
    ensures value { result ≡ value_onto before digits.now }
    ensures small { result + 1 ≤ (before + 1) * 10 ^ length digits.now }
{
    let mut value = before;
    for b in digits {
        value = 10 * value + u128::from(b - b'0');
    }
    value
}
