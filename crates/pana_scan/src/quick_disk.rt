//! The system's files as a disk on which files that haven't changed needn't be read again.
ghost use Rattle.std.specs.Prelude.{◌≡◌, ◌⊎◌, false, None, Some, IsTrue, IfNone, IfSome, OnErr, OnOk, is_some};
ghost use Rattle.std.specs.Fs.{metadata_len};
ghost use Rattle.pana_sums.specs.Table.{same_signature};
ghost use Rattle.pana_scan.specs.Quick.{IsKept, IsRecalled};
ghost use Rattle.pana_scan.specs.Scan.{IsFresh};

use crate::disk::Disk;
use crate::disk_fault::DiskFault;
use crate::entry::Entry;
use crate::sums::Sums;
use crate::system_disk::SystemDisk;
use pana_sums::{FileTime, Signature};
use std::alloc::{AllocError, Global};
use std::fs;
use std::fs::{Files, Metadata};
use std::os::unix::fs::MetadataExt;

/// The system's files for a scan, with the sums of files that earlier scans have read. A file whose signature has a known
/// sum isn't read. The sum of each other file is kept for the next scan, where the file has the same signature before and
/// after it is read, and that is settled as the scan begins.
///
/// It opens no link, and no pipe, also where a file has become one since it was listed.
#[derive(Drop)]
pub struct QuickDisk<'a, R: Files + AllocGlobal + Clone + Drop> {
    files: &'a R,
    disk: SystemDisk<'a, R>,
    sums: Sums,
    begun: FileTime,
    /// The signature of the file that is open.
    opened: Option<Signature>,
}

fn time_of(seconds: i64, nanoseconds: i64) -> Option<FileTime> {
    Some(FileTime {
        seconds,
        nanoseconds: u32::try_from(nanoseconds).ok()?,
    })
}

/// The signature of a regular file.
fn signature_of(found: &Metadata) -> Option<Signature>
    ensures { IfSome result (λ signature. signature.size ≡ metadata_len found.now) }
{
    if !found.is_file() {
        return None;
    }
    Some(Signature {
        device: found.dev(),
        inode: found.ino(),
        size: found.size(),
        modified: time_of(found.mtime(), found.mtime_nsec())?,
        changed: time_of(found.ctime(), found.ctime_nsec())?,
    })
}

/// The signature of a file that has the same one before and after.
fn unchanged(before: Option<Signature>, after: Option<Signature>) -> Option<Signature>
    ensures first { IfSome result (λ it. before ≡ Some it) }
    ensures same { IfSome before (λ first. IfSome after (λ last. is_some result ≡ same_signature first last)) }
    ensures unopened { IfNone before (result ≡ None) }
    ensures gone { IfNone after (result ≡ None) }
{
    match (before, after) {
        (Some(before), Some(after)) if before == after => Some(before),
        _ => None,
    }
}

impl<'a, R: Files + AllocGlobal + Clone + Drop> QuickDisk<'a, R> {
    /// The system's files before a scan that begins at this time, with these sums, and stays on the file system of the folder
    /// that is listed first, or enters all. Takes no memory.
    pub fn new(files: &'a R, stays: bool, sums: Sums, begun: FileTime) -> QuickDisk<'a, R>
        ensures fresh { IsFresh result.disk.has_failed result.disk.entries result.disk.faults }
        ensures sums { result.sums ≡ sums }
        ensures begun { result.begun ≡ begun }
    {
        QuickDisk {
            files,
            disk: SystemDisk::staying(files, stays),
            sums,
            begun,
            opened: None,
        }
    }

    /// The sums that were known, and those that are kept for the next scan.
    pub fn into_sums(self) -> Sums
        ensures { result ≡ self.entry.sums }
    {
        self.sums
    }

    /// The signature of the regular file at this path.
    fn signature_at(&self, file: &str) -> Option<Signature> {
        signature_of(&fs::symlink_metadata(self.files, file).ok()?)
    }

    /// The signature of the file that is open.
    fn signature_of_open(&self) -> Option<Signature> {
        signature_of(&self.disk.metadata()?)
    }

    /// Keeps the sum of a file with this signature, where that is settled. Fails only where memory runs out, and changes
    /// nothing then.
    fn keep(&mut self, signature: Signature, digest: [u8; 32]) -> Result<(), AllocError>
        ensures ok { OnOk result (IsKept self.old.begun signature digest self.old.sums.kept self.new.sums.kept) }
        ensures err { OnErr result (self.new.sums.kept ≡ self.old.sums.kept) }
        ensures known { self.new.sums.known ≡ self.old.sums.known }
        ensures rest { self.new ≡ record self.old { sums = self.new.sums } }
    {
        if signature.is_settled(self.begun) {
            self.sums.kept.insert(signature, digest)?;
        }
        Ok(())
    }

    /// The known sum of a file with this signature.
    fn recalled(&mut self, signature: Option<Signature>) -> Option<[u8; 32]>
        ensures sum { IsRecalled self.old.sums.known signature result }
        ensures disk { self.new.disk ≡ self.old.disk }
        ensures known { self.new.sums.known ≡ self.old.sums.known }
    {
        let signature = signature?;
        let digest = self.sums.known.get(&signature)?;
        // Where memory runs out the file is read again by the next scan.
        let _ = self.keep(signature, digest);
        Some(digest)
    }

    /// Whether a file has the same signature before and after it was read. Its sum is kept then.
    fn is_same(
        &mut self,
        before: Option<Signature>,
        after: Option<Signature>,
        digest: [u8; 32],
    ) -> bool
        ensures disk { self.new.disk ≡ self.old.disk }
        ensures same { IfSome before (λ first. IfSome after (λ last. result ≡ same_signature first last)) }
        ensures unopened { IfNone before (result ≡ false) }
        ensures gone { IfNone after (result ≡ false) }
        ensures known { self.new.sums.known ≡ self.old.sums.known }
        ensures kept { (self.new.sums.kept ≡ self.old.sums.kept) ⊎ IfSome before (λ first. IsTrue result × IsKept self.old.begun first digest self.old.sums.kept self.new.sums.kept) }
    {
        let Some(signature) = unchanged(before, after) else {
            return false;
        };
        let _ = self.keep(signature, digest);
        true
    }
}

impl<'a, R: Files + AllocGlobal + Clone + Drop> Disk for QuickDisk<'a, R> {
    ghost use Rattle.std.specs.Prelude.{false, None, [], true};

    ghost is_known = { false };

    ghost tree = { λ _. record { names = λ _. record { entries = []; fails = true }; content = λ _. None } };

    ghost names = { λ _. record { entries = []; fails = true } };

    ghost content = { λ _. record { bytes = []; reads = 0; fails = true } };

    ghost has_failed = { λ quick. quick.disk.has_failed };

    ghost entries = { λ quick. quick.disk.entries };

    ghost faults = { λ quick. quick.disk.faults };

    fn met(&self) -> u64 {
        self.disk.met()
    }

    fn list(&mut self, folder: &str) -> Result<(), DiskFault> {
        self.disk.list(folder)
    }

    fn next(&mut self, alloc: Global) -> Result<Option<Entry>, DiskFault> {
        self.disk.next(alloc)
    }

    fn open(&mut self, file: &str) -> Result<(), DiskFault> {
        self.opened = None;
        let Some(listed) = self.signature_at(file) else {
            return Err(self.disk.file_failed());
        };
        self.disk.open(file)?;
        match self.signature_of_open() {
            Some(opened) if opened.device == listed.device && opened.inode == listed.inode => {
                self.opened = Some(opened);
                Ok(())
            }
            _ => Err(self.disk.file_failed()),
        }
    }

    fn read(&mut self, piece: &mut [u8]) -> Result<usize, DiskFault> {
        self.disk.read(piece)
    }

    fn recall(&mut self, file: &str) -> Option<[u8; 32]> {
        let signature = self.signature_at(file);
        self.recalled(signature)
    }

    fn settle(&mut self, _file: &str, digest: &[u8; 32]) -> bool {
        let after = self.signature_of_open();
        self.is_same(self.opened, after, *digest)
    }
}
