//! A root that is to be tracked, read.
ghost use Rattle.std.specs.Prelude.{◌≡◌, ◌<◌, IsTrue, IfOk, length, map};
ghost use Rattle.pana_scan.specs.Scan.{HaveFiles, IsFresh, IsScanWithin};
ghost use Rattle.pana_track.specs.Ignored.{without_ignored};
ghost use Rattle.pana_track.specs.IgnoreFile.{IsBehind};
ghost use Rattle.pana_track.specs.Reading.{ReadsRoot};

use crate::ignore_file::patterns_of;
use crate::ignoring_disk::IgnoringDisk;
use crate::read_fault::ReadFault;
use pana_copies::DeviceName;
use pana_ignore::Patterns;
use pana_scan::{Disk, Listing, ScanFault, Watch, read_root_in_threads, read_root_within};
use std::alloc::Global;
use std::marker::{Send, Sync};
use std::thread::Threads;

/// How many entries of a root are met at most, of any kind.
const MOST_ENTRIES: u64 = 1_000_000;

/// What a root was found to hold without what its patterns ignore, and these patterns.
pub struct TrackedListing {
    pub listing: Listing,
    pub patterns: Patterns,
}

impl Drop for TrackedListing {
    fn drop(self) {
        let TrackedListing {
            listing: _,
            patterns: _,
        } = self;
    }
}

/// Scans a root without what these patterns ignore.
fn scan_without<'a, D: Disk, W: Watch>(
    alloc: Global,
    disk: &'a mut D,
    patterns: &'a Patterns,
    device: &DeviceName,
    root: &'a str,
    watch: &W,
) -> Result<Listing, ScanFault>
    requires { IsFresh (D.has_failed disk.old) (D.entries disk.old) (D.faults disk.old) }
    ensures known { IsTrue D.is_known → IsScanWithin 1000000 (without_ignored patterns.now root.now (D.tree disk.old)) root.now device.now result }
    ensures device { IfOk result (λ listing. listing.device ≡ device.now) }
{
    let mut disk = IgnoringDisk::new(alloc, disk, patterns, root);
    read_root_within(alloc, &mut disk, device, root, MOST_ENTRIES, watch)
}

/// Reads a root that is to be tracked: first its patterns, those of its file `.panadignore` and then these, and then all
/// files that they don't ignore, as `read_root_within` of `pana_scan` does, with 1,000,000 entries at most. No folder that is ignored is entered.
///
/// The root is read twice, so it takes two disks before a scan. The watch learns of each file, and of what was read of it.
///
/// # Errors
///
/// `Scan` where the root can't be scanned; `IgnoreFile`, `TooManyLines` and `LongLine` where its patterns can't be taken.
pub fn read_tracked<D: Disk, W: Watch>(
    alloc: Global,
    first: &mut D,
    disk: &mut D,
    device: &DeviceName,
    root: &str,
    more: &[&str],
    watch: &W,
) -> Result<TrackedListing, ReadFault>
    requires first { IsFresh (D.has_failed first.old) (D.entries first.old) (D.faults first.old) }
    requires disk { IsFresh (D.has_failed disk.old) (D.entries disk.old) (D.faults disk.old) }
    ensures known { IsTrue D.is_known → ReadsRoot (D.tree first.old) (D.tree disk.old) root.now device.now (map (λ text. text.now) more.now) result }
    ensures behind { IfOk result (λ found. IsBehind (map (λ text. text.now) more.now) found.patterns) }
    ensures device { IfOk result (λ found. found.listing.device ≡ device.now) }
{
    let patterns = patterns_of(alloc, first, root, more)?;
    let listing = scan_without(alloc, disk, &patterns, device, root, watch)?;
    Ok(TrackedListing { listing, patterns })
}

/// Scans a root without what these patterns ignore, on all processors.
fn scan_without_in_threads<'a, R: Threads + Sync, D: Disk + Send + Drop, W: Watch + Sync>(
    threads: &R,
    alloc: Global,
    disk: &'a mut D,
    others: &mut Vec<D>,
    patterns: &'a Patterns,
    device: &DeviceName,
    root: &'a str,
    watch: &W,
) -> Result<Listing, ScanFault>
    requires fresh { IsFresh (D.has_failed disk.old) (D.entries disk.old) (D.faults disk.old) }
    requires some { 0 < length others.old.items }
    requires known { IsTrue D.is_known → HaveFiles D.tree (D.tree disk.old) others.old.items }
    ensures known { IsTrue D.is_known → IsScanWithin 1000000 (without_ignored patterns.now root.now (D.tree disk.old)) root.now device.now result }
    ensures device { IfOk result (λ listing. listing.device ≡ device.now) }
    ensures others { IfOk result (λ listing. length others.new.items ≡ length others.old.items) }
{
    let mut disk = IgnoringDisk::new(alloc, disk, patterns, root);
    read_root_in_threads(
        threads,
        alloc,
        &mut disk,
        others,
        device,
        root,
        MOST_ENTRIES,
        watch,
    )
}

/// Reads a root that is to be tracked as `read_tracked` does, on all processors, by `read_root_in_threads` of `pana_scan`: so
/// it takes the other disks too, by which files are looked at in threads.
///
/// # Errors
///
/// As those of `read_tracked`.
pub fn read_tracked_in_threads<R: Threads + Sync, D: Disk + Send + Drop, W: Watch + Sync>(
    threads: &R,
    alloc: Global,
    first: &mut D,
    disk: &mut D,
    others: &mut Vec<D>,
    device: &DeviceName,
    root: &str,
    more: &[&str],
    watch: &W,
) -> Result<TrackedListing, ReadFault>
    requires first { IsFresh (D.has_failed first.old) (D.entries first.old) (D.faults first.old) }
    requires disk { IsFresh (D.has_failed disk.old) (D.entries disk.old) (D.faults disk.old) }
    requires some { 0 < length others.old.items }

    // All disks have the same files.
    requires known { IsTrue D.is_known → HaveFiles D.tree (D.tree disk.old) others.old.items }
    ensures known { IsTrue D.is_known → ReadsRoot (D.tree first.old) (D.tree disk.old) root.now device.now (map (λ text. text.now) more.now) result }
    ensures behind { IfOk result (λ found. IsBehind (map (λ text. text.now) more.now) found.patterns) }
    ensures device { IfOk result (λ found. found.listing.device ≡ device.now) }
    ensures others { IfOk result (λ found. length others.new.items ≡ length others.old.items) }
{
    let patterns = patterns_of(alloc, first, root, more)?;
    let listing = scan_without_in_threads(
        threads, alloc, disk, others, &patterns, device, root, watch,
    )?;
    Ok(TrackedListing { listing, patterns })
}
