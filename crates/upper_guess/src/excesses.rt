//! This module gives the excesses over the lower table.

ghost use Rattle.std.specs.Prelude.{◌≡◌, ◌^◌, ◌≤◌};
ghost use Rattle.upper_guess.specs.Guess.{excess, last_place};

/// This is the place of the last excess.
pub const LAST_PLACE: u32 = 51;

/// Returns the excess at a place: 0, 1, 2, 4, and so on.
pub fn excess_at(place: u32) -> u64
    requires { place ≤ last_place }
    ensures value { result ≡ excess place }
    ensures small { result ≤ 2 ^ 50 }
{
    (1u64 << place) / 2
}
