//! This module has the two versions of certificates.

ghost use Rattle.std.specs.Prelude.{◌≡◌};
ghost use Rattle.plan_text.specs.Versions.{decimals_of, units_of_last_digit, version_in};

use crate::fixed::UNIT_DIGITS;

/// The version says how many decimals the values of a certificate have: 12 or 15.
#[derive(Clone, Copy)]
pub enum Version {
    /// Values have 12 decimals.
    One,
    /// Values have 15 decimals: the last one counts units.
    Two,
}

impl Version {
    /// Returns the version that a field names.
    pub fn named(field: &[u8]) -> Option<Version>
        ensures { result ≡ version_in field.now }
    {
        if field == b"1".as_slice() {
            Some(Version::One)
        } else if field == b"2".as_slice() {
            Some(Version::Two)
        } else {
            None
        }
    }

    /// A value has this many digits after its point.
    pub fn decimals(self) -> usize
        ensures { result ≡ decimals_of self }
    {
        match self {
            Version::One => 12,
            Version::Two => UNIT_DIGITS,
        }
    }

    /// The last of these digits counts this many units.
    pub fn units_of_last_digit(self) -> u64
        ensures { result ≡ units_of_last_digit self }
    {
        match self {
            Version::One => 1_000,
            Version::Two => 1,
        }
    }
}
