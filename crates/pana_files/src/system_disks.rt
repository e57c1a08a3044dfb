//! The system's files, as folders are read on them: those that are tracked on all processors.
ghost use Rattle.std.specs.Prelude.{◌≡◌, ◌<◌, IfOk, length, map};
ghost use Rattle.pana_files.specs.Passed.{passed_in};
ghost use Rattle.pana_scan.specs.Scan.{IsFresh};
ghost use Rattle.pana_track.specs.IgnoreFile.{IsBehind};

use crate::folder_watch::FolderWatch;
use crate::naming_disk::NamingDisk;
use pana_roots::{Disks, Root};
use pana_scan::{QuickDisk, Sums, Unwatched, Watch};
use pana_sums::FileTime;
use pana_track::{ReadFault, TrackedListing, read_tracked_in_threads};
use std::alloc::{AllocError, Global};
use std::marker::Sync;
use std::thread;
use std::thread::Threads;
use std::time::Clock;

/// How many disks look at the files of a folder at most.
const MOST_DISKS: usize = 64;

/// What is passed over in a folder.
#[derive(Clone, Copy)]
pub struct PassedOver<'a, 'b> {
    pub folder: &'b str,
    pub patterns: &'a [&'b str],
}

/// The files of the system, of which nothing is known, and what is passed over in folders.
#[derive(Clone, Copy)]
pub struct SystemDisks<'a, 'b, 'c, 'd> {
    pub files: &'a HostRuntime,
    /// Whether folders of other file systems than a root's are passed over.
    pub stays: bool,
    pub passed_over: &'b [PassedOver<'c, 'd>],
}

/// The patterns of what is passed over in this folder: the first that are given for it.
fn patterns_in<'a, 'b>(passed: &[PassedOver<'a, 'b>], folder: &str) -> &'a [&'b str]
    ensures { map (λ text. text.now) result.now ≡ passed_in passed.now folder.now }
{
    for one in passed {
        if one.folder == folder {
            return one.patterns;
        }
    }
    &[]
}

/// The time now. Where the system has none, no file's times are before it.
fn now(files: &HostRuntime) -> FileTime {
    match files.since_1970() {
        Ok(time) => FileTime {
            seconds: i64::try_from(time.as_secs()).unwrap_or(i64::MIN),
            nanoseconds: time.subsec_nanos(),
        },
        Err(_) => FileTime {
            seconds: i64::MIN,
            nanoseconds: 0,
        },
    }
}

/// How many disks look at the files of a folder: four for each processor, so that one whose files are small goes on with others.
fn disk_count<T: Threads>(threads: &T) -> usize {
    match thread::available_parallelism(threads) {
        Ok(processors) => processors.get().saturating_mul(4).min(MOST_DISKS),
        Err(_) => 4,
    }
}

/// Disks by which files are looked at, each with these sums, on which the watch names what is passed over, where there is one.
fn many_disks<'a, 'b, 'c>(
    alloc: Global,
    disks: &SystemDisks<'a, '_, '_, '_>,
    sums: &Sums,
    naming: Option<&'b FolderWatch<'c>>,
    count: usize,
) -> Result<Vec<NamingDisk<'b, 'c, QuickDisk<'a, HostRuntime>>>, AllocError>
    ensures { IfOk result (λ many. 0 < length many.items) }
{
    let mut many = Vec::new(alloc);
    for _ in 1..count {
        let disk = disks.disk(sums.share(alloc)?);
        many.push(NamingDisk::new(alloc, disk, naming))?;
    }
    let disk = disks.disk(sums.share(alloc)?);
    many.push(NamingDisk::new(alloc, disk, naming))?;
    Ok(many)
}

/// Keeps what the disks have kept.
fn take_sums<'a>(
    disks: &SystemDisks<'a, '_, '_, '_>,
    many: Vec<NamingDisk<'_, '_, QuickDisk<'a, HostRuntime>>>,
    sums: &mut Sums,
) -> Result<(), AllocError> {
    for disk in many {
        sums.take_in(&disks.sums_of(disk.into_disk()))?;
    }
    Ok(())
}

/// Reads the folder of a root on all processors, its patterns on the first disk, and keeps the sums of its files. The one watch
/// follows, and the other names what is passed over, where there is one.
///
/// # Errors
///
/// `AllocError` where memory ran out before files were read, or for their sums.
pub(crate) fn read_in_threads<'a, T: Threads + Sync, W: Watch + Sync>(
    threads: &T,
    alloc: Global,
    disks: &SystemDisks<'a, '_, '_, '_>,
    first: QuickDisk<'a, HostRuntime>,
    root: &Root<'_>,
    naming: Option<&FolderWatch<'_>>,
    watch: &W,
    sums: &mut Sums,
) -> Result<Result<TrackedListing, ReadFault>, AllocError>
    requires { IsFresh first.disk.has_failed first.disk.entries first.disk.faults }
    ensures behind { IfOk result (λ given. IfOk given (λ found. IsBehind (passed_in disks.now.passed_over.now root.now.folder.now) found.patterns)) }
    ensures device { IfOk result (λ given. IfOk given (λ found. found.listing.device ≡ root.now.device)) }
{
    let mut others = many_disks(alloc, disks, sums, naming, disk_count(threads))?;
    let given = read_tracked_in_threads(
        threads,
        alloc,
        &mut NamingDisk::new(alloc, first, None),
        &mut NamingDisk::new(alloc, disks.disk(Sums::none(alloc)), naming),
        &mut others,
        &root.device,
        root.folder,
        patterns_in(disks.passed_over, root.folder),
        watch,
    );
    take_sums(disks, others, sums)?;
    Ok(given)
}

impl<'a> Disks for SystemDisks<'a, '_, '_, '_> {
    type Given = QuickDisk<'a, HostRuntime>;

    ghost use Rattle.pana_files.specs.Passed.{passed_in};

    ghost passes = { λ disks folder. passed_in disks.passed_over.now folder };

    fn disk(&self, sums: Sums) -> QuickDisk<'a, HostRuntime> {
        QuickDisk::new(self.files, self.stays, sums, now(self.files))
    }

    fn sums_of(&self, disk: QuickDisk<'a, HostRuntime>) -> Sums {
        disk.into_sums()
    }

    fn passed_over(&self, folder: &str) -> &[&str] {
        patterns_in(self.passed_over, folder)
    }

    fn read_tracked<T: Threads + Sync>(
        &self,
        threads: &T,
        alloc: Global,
        root: &Root<'_>,
        sums: &mut Sums,
    ) -> Result<TrackedListing, ReadFault> {
        let first = self.disk(Sums::none(alloc));
        read_in_threads(threads, alloc, self, first, root, None, &Unwatched, sums)?
    }
}
