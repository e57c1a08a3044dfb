ghost use Rattle.std.specs.Prelude.{◌≡◌, true};
ghost use Rattle.hex.specs.Hex.{encode_lower};
ghost use Rattle.pana_copies.specs.Sums.{is_sum};

use hex::encode_to_slice;
use std::marker::Model;
use std::str;

/// How many digits a sum has.
pub(crate) const DIGITS: usize = 64;

/// How many bytes they stand for.
pub(crate) const BYTES: usize = 32;

/// The 64 digits of a sum.
///
/// It takes 64 bytes where it stands, and no allocation.
#[derive(Clone, Copy)]
pub struct SumText {
    digits: [u8; DIGITS],
}

impl Model for SumText {
    ghost use Rattle.std.specs.Prelude.{◌≡◌, List, ℕ, true};
    ghost use Rattle.pana_copies.specs.Sums.{is_sum};

    ghost Value = { List ℕ };

    ghost view = { λ text. text.digits };

    ghost invariant = { λ text. is_sum text.digits ≡ true };

    ghost inverse = { λ digits. record { digits = digits } };
}

impl SumText {
    /// The digits of these bytes.
    pub(crate) fn of_bytes(bytes: &[u8; BYTES]) -> SumText
        ensures { result ≡ encode_lower bytes.now }
    {
        let mut digits = [0; DIGITS];
        encode_to_slice(bytes, &mut digits).unwrap();
        SumText { digits }
    }

    /// The digits as text. Takes no memory.
    pub fn as_str(&self) -> &str
        ensures text { result.now ≡ self.now }
        ensures sum { is_sum self.now ≡ true }
    {
        // as in `DeviceName::as_str`
        unsafe { str::from_utf8_unchecked(&self.digits) }
    }
}
