//! Fingerprints of files.
ghost use Rattle.std.specs.Prelude.{◌≡◌, ◌+◌, ◌≤◌, IsTrue, OnSome, if◌then◌else◌, is_none};
ghost use Rattle.pana_scan.specs.Scan.{digest_of};

use crate::disk::Disk;
use crate::watch::Watch;
use sha2::{Digest, Sha256};

/// How many bytes are read at a time, at most.
const PIECE: usize = 16_384;

/// The SHA-256 of all bytes of the file that was opened. None where a read fails, or where this many reads don't meet
/// the end. Takes no memory. The watch learns how many bytes were read.
pub fn fingerprint<D: Disk, W: Watch>(disk: &mut D, reads: u64, watch: &W) -> Option<[u8; 32]>
    ensures digest { IsTrue D.is_known → result ≡ digest_of reads (D.content disk.old) }
    ensures tree { IsTrue D.is_known → D.tree disk.new ≡ D.tree disk.old }
    ensures failed { D.has_failed disk.new ≡ D.has_failed disk.old }
    ensures entries { D.entries disk.new ≡ D.entries disk.old }
    ensures seen { OnSome result (D.faults disk.new ≡ D.faults disk.old) }
    ensures faults { D.faults disk.new ≤ (if is_none result then D.faults disk.old + 1 else D.faults disk.old) }
{
    let mut hasher = Sha256::new();
    let mut piece = [0u8; PIECE];
    for _made in 0..reads {
        let Ok(count) = disk.read(&mut piece) else {
            return None;
        };
        if count == 0 {
            return Some(hasher.finalize());
        }
        hasher.update(&piece[..count]);
        watch.bytes_read(count);
    }
    None
}
