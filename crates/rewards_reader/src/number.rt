//! This module reads rewards as texts spell them.

ghost use Rattle.std.specs.Prelude.{◌≡◌, Err};
ghost use Rattle.text_lines.specs.Text.{all_digits};
ghost use Rattle.fractions.specs.Number.{number_said};
ghost use Rattle.rewards_reader.specs.Amounts.{amount_said};

use crate::amount::Amount;
use crate::fault::RewardsCause;
use crate::large::{large_decimal, large_quotient};
use fractions::{NumberFault, read_number};
use numerals::{Written, read_spelling};

/// Reads the reward that a text spells, or gives its first fault: a `Number`, or `TooLarge`. Only a number above 2 is
/// taken apart a second time. The answer is what the text denotes: `laws::amounts_are_those_that_a_text_denotes`.
pub fn read_amount(text: &[u8]) -> Result<Amount, RewardsCause>
    ensures { result ≡ amount_said text.now }
{
    match read_number(text) {
        Ok(number) => Ok(Amount::of_number(&number)),
        Err(fault) => match fault {
            NumberFault::TooLarge => read_large(text),
            _ => Err(RewardsCause::Number(fault)),
        },
    }
}

// Reads a number above 2.
fn read_large(text: &[u8]) -> Result<Amount, RewardsCause>
    requires { number_said text.now ≡ Err NumberFault.TooLarge }
    ensures { result ≡ amount_said text.now }
{
    match read_spelling(text) {
        None => Err(RewardsCause::Number(NumberFault::NotANumber)),
        Some(Written::Point { front, back, power }) => large_decimal(front, back, power),
        Some(Written::Line { above, below }) => large_quotient(above, below),
    }
}
