//! A table's file read: what stands between the line and the digest, and a record.
ghost use Rattle.std.specs.Prelude.{◌≡◌, ◌↔◌, ◌+◌, ◌≤◌, List, ℕ, Some, length, take, drop, option_copied};
ghost use Rattle.pana_sums.specs.File.{sealed};
ghost use Rattle.pana_sums.specs.inner.Records.{time_in, row_in};

use crate::file_time::FileTime;
use crate::signature::Signature;
use sha2::{Digest, Sha256};

/// The line at the head of a file of sums.
pub(crate) const HEAD: &[u8] = b"panad sums 1\n";

/// What stands between the line and the digest, if the line is there and the digest is that of what stands before it.
pub(crate) fn records_of(bytes: &[u8]) -> Option<&[u8]>
    ensures { (records : List ℕ) → (option_copied result ≡ Some records) ↔ (sealed records ≡ bytes.now) }
{
    let (before, digest) = bytes.split_last_chunk::<32>()?;
    if Sha256::digest(before) != *digest {
        return None;
    }
    before.strip_prefix(HEAD)
}

/// As many bytes as the array has, from this index on.
fn bytes_at<const N: usize>(bytes: &[u8], index: usize) -> [u8; N]
    requires { index + N ≤ length bytes.now }
    ensures { result ≡ take N (drop index bytes.now) }
{
    let (chunk, _) = bytes[index..].split_first_chunk().unwrap();
    *chunk
}

fn time_in(bytes: &[u8; 12]) -> FileTime
    ensures { result ≡ time_in bytes.now }
{
    FileTime {
        seconds: i64::from_be_bytes(bytes_at(bytes, 0)),
        nanoseconds: u32::from_be_bytes(bytes_at(bytes, 8)),
    }
}

/// The signature and the digest that a record spells.
pub(crate) fn row_in(bytes: &[u8; 80]) -> (Signature, [u8; 32])
    ensures { result ≡ row_in bytes.now }
{
    let signature = Signature {
        device: u64::from_be_bytes(bytes_at(bytes, 0)),
        inode: u64::from_be_bytes(bytes_at(bytes, 8)),
        size: u64::from_be_bytes(bytes_at(bytes, 16)),
        modified: time_in(&bytes_at(bytes, 24)),
        changed: time_in(&bytes_at(bytes, 36)),
    };
    (signature, bytes_at(bytes, 48))
}
