//! This module has numbers above 2 as rewards.

ghost use Rattle.std.specs.Prelude.{◌≡◌, ◌≤◌, ◌<◌, ◌*◌, ◌^◌, true, Some, Err};
ghost use Rattle.std.specs.Int.{IsGcd};
ghost use Rattle.text_lines.specs.Text.{all_digits};
ghost use Rattle.numerals.specs.Limits.{most_digits};
ghost use Rattle.numerals.specs.Spelling.{Decimal, Quotient};
ghost use Rattle.numerals.specs.Written.{exponent_in};
ghost use Rattle.fractions.specs.Limits.{finest};
ghost use Rattle.fractions.specs.Number.{fraction_said, spelling_said};
ghost use Rattle.rewards_reader.specs.Amounts.{amount_of, amount_within, spelled_amount};

use crate::amount::Amount;
use crate::fault::RewardsCause;
use crate::limits::{MOST_REWARD, MOST_REWARD_TENS};
use fractions::{NumberFault, greatest_common_divisor};
use numerals::{Power, digits_onto};

/// Returns the reward of a decimal above 2, or its fault.
pub fn large_decimal(front: &[u8], back: &[u8], power: Power<'_>) -> Result<Amount, RewardsCause>
    requires front { all_digits front.now ≡ true }
    requires back { all_digits back.now ≡ true }
    requires power { all_digits power.digits.now ≡ true }
    requires large { spelling_said (Some (Decimal front.now back.now (exponent_in power))) ≡ Err NumberFault.TooLarge }
    ensures { result ≡ spelled_amount (Some (Decimal front.now back.now (exponent_in power.entry))) }
{
    let digits = digits_onto(digits_onto(0, front), back);
    let places = back.len() as u32;
    let size = digits_onto(0, power.digits) as u32;
    if power.below {
        large_over_tens(digits, 0, places + size)
    } else {
        large_over_tens(digits, size, places)
    }
}

/// Returns the reward of a fraction above 2, or its fault.
pub fn large_quotient(above: &[u8], below: &[u8]) -> Result<Amount, RewardsCause>
    requires above { all_digits above.now ≡ true }
    requires below { all_digits below.now ≡ true }
    requires large { spelling_said (Some (Quotient above.now below.now)) ≡ Err NumberFault.TooLarge }
    ensures { result ≡ spelled_amount (Some (Quotient above.now below.now)) }
{
    reduced(digits_onto(0, above), digits_onto(0, below))
}

// Returns the reward of digits times a power of ten, over a power of ten, or its fault. It is above 2, so `10^(down -
// up)` is below the digits.
fn large_over_tens(digits: u128, up: u32, down: u32) -> Result<Amount, RewardsCause>
    requires small { digits < 10 ^ most_digits }
    requires large { fraction_said (record { num = digits * 10 ^ up; den = 10 ^ down }) ≡ Err NumberFault.TooLarge }
    ensures { result ≡ amount_of (record { num = digits * 10 ^ up; den = 10 ^ down }) }
{
    if up <= down {
        return reduced(digits, 10u128.pow(down - up));
    }
    if up - down > MOST_REWARD_TENS {
        return Err(RewardsCause::TooLarge);
    }
    if digits > MOST_REWARD {
        return Err(RewardsCause::TooLarge);
    }
    checked(digits * 10u128.pow(up - down), 1)
}

// Returns the reward of a fraction above 2, or its fault.
fn reduced(above: u128, below: u128) -> Result<Amount, RewardsCause>
    requires { fraction_said (record { num = above; den = below }) ≡ Err NumberFault.TooLarge }
    ensures { result ≡ amount_of (record { num = above; den = below }) }
{
    let divisor = greatest_common_divisor(above, below);
    checked(above / divisor, below / divisor)
}

// Returns the reward of a fraction in lowest terms, unless it is too large.
fn checked(num: u128, den: u128) -> Result<Amount, RewardsCause>
    requires lowest { IsGcd num den 1 }
    requires positive { 1 ≤ den }
    requires fine { den ≤ finest }
    ensures { result ≡ amount_within (record { num = num; den = den }) }
{
    if num > MOST_REWARD * den {
        return Err(RewardsCause::TooLarge);
    }
    Ok(Amount::of(num, den))
}
