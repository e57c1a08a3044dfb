ghost use Rattle.std.specs.Prelude.{◌≡◌, ◌↔◌, true, false, length, IfOk, IfErr, IsErrOf};
ghost use Rattle.std.specs.List.{list_all};
ghost use Rattle.pana_copies.specs.{Names.is_device, Names.is_device_byte, Names.before_zeros, inner.Marks.mark_of};

use crate::name_fault::NameFault;
use std::hash::{Hash, Hasher};
use std::marker::Model;
use std::{fmt, str};

/// The longest name of a device, in bytes.
const LONGEST_DEVICE: usize = 32;

/// The name of a device: 1 to 32 bytes of `a` to `z`, `0` to `9`, `-` and `_`.
///
/// It takes 32 bytes where it stands, and no allocation. After a shorter name stand zeros.
pub struct DeviceName {
    bytes: [u8; LONGEST_DEVICE],
}

impl Drop for DeviceName {
    fn drop(self) {
        let DeviceName { bytes: _ } = self;
    }
}

const _: () = prove!(size_of::<DeviceName>() == 32);

impl Model for DeviceName {
    ghost use Rattle.std.specs.Prelude.{◌≡◌, List, ℕ, true};
    ghost use Rattle.pana_copies.specs.Names.{is_device, before_zeros};
    ghost use Rattle.pana_copies.specs.inner.DeviceBytes.{AreDeviceBytes};

    ghost Value = { List ℕ };

    ghost view = { λ name. before_zeros name.bytes };

    ghost invariant = { λ name. AreDeviceBytes name.bytes };
}

fn is_device_byte(byte: u8) -> bool
    ensures { result ≡ is_device_byte byte }
{
    matches!(byte, b'a'..=b'z' | b'0'..=b'9' | b'-' | b'_')
}

fn are_device_bytes(bytes: &[u8]) -> bool
    ensures { result ≡ list_all is_device_byte bytes.now }
{
    bytes.iter().all(|byte| is_device_byte(*byte))
}

fn is_device(text: &str) -> bool
    ensures { result ≡ is_device text.now }
{
    !text.is_empty() && text.len() <= LONGEST_DEVICE && are_device_bytes(text.as_bytes())
}

/// How many bytes stand before the first zero.
fn len_before_zeros(bytes: &[u8]) -> usize
    ensures { result ≡ length (before_zeros bytes.now) }
{
    bytes
        .iter()
        .position(|byte| *byte == 0)
        .unwrap_or(bytes.len())
}

impl DeviceName {
    /// Takes a text as a device's name. Takes no memory.
    ///
    /// # Errors
    ///
    /// `BadDevice` where the text is no such name, and no other.
    pub fn new(text: &str) -> Result<DeviceName, NameFault>
        ensures ok { IfOk result (λ name. name ≡ text.now) }
        ensures bad { IsErrOf result NameFault.BadDevice ↔ (is_device text.now ≡ false) }
        ensures others { IfErr result (λ fault. fault ≡ NameFault.BadDevice) }
    {
        if !is_device(text) {
            return Err(NameFault::BadDevice);
        }
        let mut bytes = [0; LONGEST_DEVICE];
        bytes[..text.len()].copy_from_slice(text.as_bytes());
        Ok(DeviceName { bytes })
    }

    fn as_bytes(&self) -> &[u8]
        ensures bytes { result.now ≡ self.now }
        ensures device { is_device self.now ≡ true }
    {
        &self.bytes[..len_before_zeros(&self.bytes)]
    }

    /// The name as text. Takes no memory.
    pub fn as_str(&self) -> &str
        ensures text { result.now ≡ self.now }
        ensures device { is_device self.now ≡ true }
    {
        // to check it once more took an eighth of a page of entries
        unsafe { str::from_utf8_unchecked(self.as_bytes()) }
    }

    /// A byte in which most other names differ. Takes no memory.
    #[tactic(auto, unfolding(crate::specs::inner::Marks::mark_of))]
    pub(crate) fn mark(&self) -> u8
        ensures { result ≡ mark_of self.now }
    {
        let bytes = self.as_bytes();
        let mut mark = 0u8;
        for byte in bytes {
            mark = mark.wrapping_mul(31).wrapping_add(*byte);
        }
        mark
    }

    /// The same name once more. Takes no memory.
    pub fn copy_of(&self) -> DeviceName
        ensures { result ≡ self.now }
    {
        DeviceName { bytes: self.bytes }
    }
}

impl PartialEq for DeviceName {
    ghost use Rattle.std.specs.Str.{bytes_eq};
    ghost use Rattle.std.specs.Cmp.Rules.{comparing};
    ghost use Rattle.std.proofs.Common.{rules};

    ghost eq = { λ a b. bytes_eq a b };

    ghost laws = { Prim.search (comparing, rules) };

    fn eq(&self, other: &DeviceName) -> bool {
        self.bytes == other.bytes
    }
}

impl Eq for DeviceName {
    ghost use Rattle.std.specs.Cmp.Rules.{comparing};
    ghost use Rattle.std.proofs.Common.{rules};

    ghost laws = { Prim.search (comparing, rules) };
}

impl Hash for DeviceName {
    ghost use Rattle.std.specs.Hash as fed;
    ghost use Rattle.std.specs.Cmp.Rules.{hashing};
    ghost use Rattle.std.proofs.Common.{rules};

    ghost hash_input = { λ name. fed.str name };

    ghost respects_eq = { Prim.search (hashing, rules) };

    fn hash<H: Hasher>(&self, state: &mut H) {
        state.write(self.as_bytes());
        state.write_u8(0xFF)
    }
}

impl fmt::Debug for DeviceName {
    fn fmt<W: fmt::Write>(&self, f: &mut fmt::Formatter<W>) -> fmt::Result {
        f.debug_struct("DeviceName")
            .field("text", &self.as_str())
            .finish()
    }
}
