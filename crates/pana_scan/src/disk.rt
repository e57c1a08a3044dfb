//! Disks, as a scan reads them.
ghost use Rattle.std.specs.Prelude.{◌≡◌, ◌<◌, ◌≤◌, ◌||◌, Bool, true, IsTrue, ℕ, Some, length, IfOk, IfSome, is_err};
ghost use Rattle.pana_scan.specs.Disk.{Tree, Names, Content, is_failure, entries_after, faults_after, Begins, Gives, Opens, Reads};
ghost use Rattle.pana_scan.specs.Scan.{found_of, seen};

use crate::disk_fault::DiskFault;
use crate::entry::Entry;
use std::alloc::Global;

/// A disk as a scan reads it: one folder is listed at a time, and one file is read at a time.
///
/// What a call gives is said of disks that are known; of the system's nothing is known. Which calls have failed and how
/// many entries were given is said of every disk.
pub trait Disk {
    ghost is_known: { Bool };

    /// What it holds.
    ghost tree: { Self → Tree };

    /// What is still to come of the folder that is listed.
    ghost names: { Self → Names };

    /// What is still to come of the file that is open.
    ghost content: { Self → Content };

    /// Listing a folder has failed.
    ghost has_failed: { Self → Bool };

    /// How many entries it has given.
    ghost entries: { Self → ℕ };

    /// How many times opening or reading a file has failed.
    ghost faults: { Self → ℕ };

    /// How many entries it has given. The count stays at the greatest `u64`.
    fn met(&self) -> u64
        ensures { result ≡ entries self.now };

    /// Begins to list a folder.
    fn list(&mut self, folder: &str) -> Result<(), DiskFault>
        ensures failed { has_failed self.new ≡ (has_failed self.old || is_failure result) }
        ensures entries { entries self.new ≡ entries self.old }
        ensures faults { faults self.new ≡ faults self.old }
        ensures tree { IsTrue is_known → tree self.new ≡ tree self.old }
        ensures begins { IsTrue is_known → Begins ((tree self.old).names folder.now) result (names self.new) };

    /// The next entry of the folder, in the order of the disk; none at the end.
    fn next(&mut self, alloc: Global) -> Result<Option<Entry>, DiskFault>
        ensures failed { has_failed self.new ≡ (has_failed self.old || is_failure result) }
        ensures entries { entries self.new ≡ entries_after (entries self.old) result }
        ensures faults { faults self.new ≡ faults self.old }
        ensures tree { IsTrue is_known → tree self.new ≡ tree self.old }
        ensures gives { IsTrue is_known → Gives (names self.old) result (names self.new) };

    /// Opens a file to read it from its first byte.
    fn open(&mut self, file: &str) -> Result<(), DiskFault>
        ensures failed { has_failed self.new ≡ has_failed self.old }
        ensures entries { entries self.new ≡ entries self.old }
        ensures faults { faults self.new ≡ faults_after (faults self.old) (is_failure result) }
        ensures tree { IsTrue is_known → tree self.new ≡ tree self.old }
        ensures opens { IsTrue is_known → Opens ((tree self.old).content file.now) result (content self.new) };

    /// Reads some of the file that is open: at least a byte, or none at its end. Returns how many bytes it has put into
    /// the piece, from its first byte on, which may be fewer than fit.
    fn read(&mut self, piece: &mut [u8]) -> Result<usize, DiskFault>
        requires { 0 < length piece.old }
        ensures bound { IfOk result (λ n. n ≤ length piece.new) }
        ensures failed { has_failed self.new ≡ has_failed self.old }
        ensures entries { entries self.new ≡ entries self.old }
        ensures faults { faults self.new ≡ faults_after (faults self.old) (is_err result) }
        ensures tree { IsTrue is_known → tree self.new ≡ tree self.old }
        ensures reads { IsTrue is_known → Reads (content self.old) result piece.new (content self.new) };

    /// The SHA-256 of a file's bytes, where it is known that the file is as it was when it was read before. One that isn't
    /// known has to be read.
    fn recall(&mut self, _file: &str) -> Option<[u8; 32]>
        ensures known { IfSome result (λ digest. IsTrue is_known → found_of ((tree self.old).content _file.now) ≡ seen (Some digest)) }
        ensures failed { has_failed self.new ≡ has_failed self.old }
        ensures entries { entries self.new ≡ entries self.old }
        ensures faults { faults self.new ≡ faults self.old }
        ensures tree { IsTrue is_known → tree self.new ≡ tree self.old }
    {
        None
    }

    /// Takes what was read of the file that is open, whose bytes have this SHA-256. Whether the file is still as it was
    /// when it was opened; else something else may have been read than it ever held.
    fn settle(&mut self, _file: &str, _digest: &[u8; 32]) -> bool
        ensures known { IsTrue is_known → result ≡ true }
        ensures failed { has_failed self.new ≡ has_failed self.old }
        ensures entries { entries self.new ≡ entries self.old }
        ensures faults { faults self.new ≡ faults self.old }
        ensures tree { IsTrue is_known → tree self.new ≡ tree self.old }
    {
        true
    }
}
