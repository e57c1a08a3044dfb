ghost use Rattle.std.specs.Prelude.{◌≡◌, ◌⊎◌, ◌↔◌, true, false, IfOk, IfErr, IfSome, IfNone, IsErrOf, IsTrue, string_bytes};
ghost use Rattle.std.specs.List.{list_all};
ghost use Rattle.std.specs.Ordering.{nat_cmp};
ghost use Rattle.std.specs.Cmp.Lexicographic.{slice_cmp};
ghost use Rattle.hex.specs.Hex.{encode_lower};
ghost use Rattle.pana_copies.specs.Sums.{is_sum, is_sum_digit};
ghost use Rattle.pana_copies.specs.inner.SumBytes.{AreSumBytes};

use crate::name_fault::NameFault;
use crate::sum_text::{BYTES, DIGITS, SumText};
use hex::{decode_to_slice, encode, encode_to_slice};
use std::alloc::{AllocError, Global};
use std::cmp::Ordering;
use std::marker::Model;

/// The SHA-256 of a file's bytes: 64 of `0` to `9` and `a` to `f`.
///
/// It takes an allocation of 32 bytes. To contracts it is its text.
#[derive(Debug)]
pub struct Sum {
    bytes: Box<[u8; BYTES]>,
}

impl Drop for Sum {
    fn drop(self) {
        let Sum { bytes: _ } = self;
    }
}

impl Model for Sum {
    ghost use Rattle.std.specs.Prelude.{List, ℕ};
    ghost use Rattle.hex.specs.Hex.{encode_lower};
    ghost use Rattle.pana_copies.specs.inner.SumBytes.{AreSumBytes};

    ghost Value = { List ℕ };

    ghost view = { λ sum. encode_lower sum.bytes.value };

    ghost invariant = { λ sum. AreSumBytes sum.bytes.value };
}

fn is_sum_digit(byte: u8) -> bool
    ensures { result ≡ is_sum_digit byte }
{
    matches!(byte, b'0'..=b'9' | b'a'..=b'f')
}

fn are_sum_digits(bytes: &[u8]) -> bool
    ensures { result ≡ list_all is_sum_digit bytes.now }
{
    bytes.iter().all(|byte| is_sum_digit(*byte))
}

fn is_sum(text: &str) -> bool
    ensures { result ≡ is_sum text.now }
{
    text.len() == DIGITS && are_sum_digits(text.as_bytes())
}

/// The value of a digit of a sum, from 0 to 15. Of another byte it is of no use.
fn value_of(digit: u8) -> u8 {
    (digit & 15).wrapping_add((digit >> 6).wrapping_mul(9))
}

/// Whether the bytes, as digits, are the text.
fn spell(bytes: &[u8; BYTES], text: &[u8; DIGITS]) -> bool
    ensures text { IsTrue result → encode_lower bytes.now ≡ text.now }
    ensures bytes { AreSumBytes bytes.now }
{
    let mut digits = [0; DIGITS];
    encode_to_slice(bytes, &mut digits).is_ok() && digits == *text
}

/// The bytes that a text spells, if they spell it in their turn: of each sum they do.
fn spelled(text: &[u8; DIGITS]) -> Option<[u8; BYTES]>
    ensures text { IfSome result (λ bytes. encode_lower bytes ≡ text.now) }
    ensures bytes { IfSome result AreSumBytes }
{
    let mut bytes = [0; BYTES];
    let (pairs, _) = text.as_chunks::<2>();
    for (byte, [high, low]) in bytes.iter_mut().zip(pairs) {
        *byte = value_of(*high)
            .wrapping_mul(16)
            .wrapping_add(value_of(*low));
    }
    if spell(&bytes, text) {
        Some(bytes)
    } else {
        None
    }
}

/// The bytes of a sum, if the text is one.
fn bytes_of(text: &str) -> Option<[u8; BYTES]>
    ensures text { IfSome result (λ bytes. encode_lower bytes ≡ text.now) }
    ensures bytes { IfSome result AreSumBytes }
    ensures none { IfNone result (is_sum text.now ≡ false) }
{
    let Some(digits) = text.as_bytes().as_array() else {
        return None;
    };
    if let Some(bytes) = spelled(digits) {
        return Some(bytes);
    }
    if !is_sum(text) {
        return None;
    }
    let mut bytes = [0; BYTES];
    decode_to_slice(text, &mut bytes).unwrap();
    Some(bytes)
}

impl Sum {
    /// Takes a text as a sum.
    ///
    /// # Errors
    ///
    /// `BadSum` where the text is no such sum; `OutOfMemory`.
    pub fn new(alloc: Global, text: &str) -> Result<Sum, NameFault>
        ensures ok { IfOk result (λ sum. sum ≡ text.now) }
        ensures bad { IsErrOf result NameFault.BadSum ↔ (is_sum text.now ≡ false) }
        ensures others { IfErr result (λ fault. (fault ≡ NameFault.BadSum) ⊎ (fault ≡ NameFault.OutOfMemory)) }
    {
        let Some(bytes) = bytes_of(text) else {
            return Err(NameFault::BadSum);
        };
        match Box::new(alloc, bytes) {
            Ok(bytes) => Ok(Sum { bytes }),
            Err(_) => Err(NameFault::OutOfMemory),
        }
    }

    /// The sum with this SHA-256 of a file's bytes. Fails only where memory runs out.
    pub fn of_digest(alloc: Global, digest: &[u8; BYTES]) -> Result<Sum, AllocError>
        ensures { IfOk result (λ sum. sum ≡ encode_lower digest.now) }
    {
        Ok(Sum {
            bytes: Box::new(alloc, *digest)?,
        })
    }

    /// How two sums compare, byte by byte as their texts do. Takes no memory.
    pub fn order(&self, other: &Sum) -> Ordering
        ensures { result ≡ slice_cmp nat_cmp self.now other.now }
    {
        self.bytes.as_slice().cmp(other.bytes.as_slice())
    }

    /// The sum's digits. Takes no memory.
    pub fn digits(&self) -> SumText
        ensures text { result ≡ self.now }
        ensures sum { is_sum self.now ≡ true }
    {
        SumText::of_bytes(&self.bytes)
    }

    /// The sum as text. Fails only where memory runs out.
    pub fn text(&self, alloc: Global) -> Result<String, AllocError>
        ensures text { IfOk result (λ text. string_bytes text ≡ self.now) }
        ensures sum { is_sum self.now ≡ true }
    {
        encode(alloc, *self.bytes)
    }

    /// The same sum once more. Fails only where memory runs out.
    pub fn copy_of(&self, alloc: Global) -> Result<Sum, AllocError>
        ensures { IfOk result (λ sum. sum ≡ self.now) }
    {
        Ok(Sum {
            bytes: Box::new(alloc, *self.bytes)?,
        })
    }
}

impl PartialEq for Sum {
    ghost use Rattle.std.specs.Str.{bytes_eq};
    ghost use Rattle.std.specs.Cmp.Rules.{comparing};
    ghost use Rattle.std.proofs.Common.{rules};

    ghost eq = { λ a b. bytes_eq a b };

    ghost laws = { Prim.search (comparing, rules) };

    fn eq(&self, other: &Sum) -> bool {
        self.bytes.as_slice() == other.bytes.as_slice()
    }
}

impl Eq for Sum {
    ghost use Rattle.std.specs.Cmp.Rules.{comparing};
    ghost use Rattle.std.proofs.Common.{rules};

    ghost laws = { Prim.search (comparing, rules) };
}
