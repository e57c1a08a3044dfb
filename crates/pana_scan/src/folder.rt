//! A folder read into a listing.
ghost use Rattle.std.specs.Prelude.{◌≡◌, ◌+◌, ◌≤◌, ◌<◌, false, IsTrue, [], ◌++◌, ◌||◌, length, if◌then◌else◌, is_some, option_copied, string_bytes, sum_by, IfOk, OnOk};
ghost use Rattle.std.specs.Option.{option_to_list};
ghost use Rattle.std.specs.List.Sorted.{IsStrictlySortedBy};
ghost use Rattle.pana_scan.specs.Disk.{Begins, is_failure};
ghost use Rattle.pana_scan.specs.Order.{path_cmp};
ghost use Rattle.pana_scan.specs.Listing.{counted};
ghost use Rattle.pana_scan.specs.Names.{file_in, is_skipped, path_in, whole_text};
ghost use Rattle.pana_scan.specs.Tree.{inner_folder};
ghost use Rattle.pana_scan.specs.Scan.{HasFaults, HasMet, HaveFiles, IsFresh, IsScan, IsScanWithin, is_unlisted, unreadable_count};
ghost use Rattle.pana_scan.specs.inner.Walk.{AreFiles, IsFolderRead, IsGathered, kept_file, kept_folder};

use crate::disk::Disk;
use crate::disk_fault::DiskFault;
use crate::entry::{Entry, Kind};
use crate::listing::Listing;
use crate::looking::{Looked, look_at, look_in_threads};
use crate::ordering::path_order;
use crate::scan_fault::ScanFault;
use crate::watch::Watch;
use pana_copies::{CopyPath, DeviceName, NameFault};
use std::alloc::{AllocError, Global};
use std::marker::{Send, Sync};
use std::mem;
use std::thread::Threads;

/// How many entries of folders a scan meets at most, of any kind, where no other number is given.
const MOST_ENTRIES: u64 = 100_000;

/// How many levels of folders a scan lists at most: the root's, and 64 below it.
const MOST_LEVELS: u64 = 65;

/// A folder to be listed, by its path relative to the root, or the root itself; and how many levels may be listed from
/// it down, its own among them.
#[derive(Drop)]
pub(crate) struct FolderAt {
    path: Option<CopyPath>,
    levels: u64,
}

/// What was met of a root so far, by paths relative to it.
#[derive(Drop)]
struct Gathered {
    /// Folders that aren't listed yet.
    folders: Vec<FolderAt>,
    files: Vec<CopyPath>,
    skipped: u64,
}

/// The regular files of a root.
#[derive(Drop)]
struct Files {
    /// Their paths relative to it, which rise in byte order.
    paths: Vec<CopyPath>,
    skipped: u64,
}

/// Reads all files of a folder, and of the folders in it, into a listing of this device.
///
/// Each regular file is `Seen` with its fingerprint, or `Unreadable` where it is gone, can't be opened or read, changes
/// meanwhile, or doesn't come to its end in 16,777,216 reads. Symbolic links, and what is neither a file nor a folder, are passed
/// over. A name that isn't UTF-8, and a file or folder whose path isn't a copy's path, is counted as skipped, and such a
/// folder isn't entered. Paths are relative to the folder, with `/` between folders.
///
/// # Errors
///
/// `Folder` where a folder couldn't be listed; `TooMany` past 100,000 entries, of any kind; `TooNested` where a folder
/// is more than 64 folders below the root; `OutOfMemory`. It takes memory for paths and fingerprints, and none for a
/// file's bytes.
///
/// The watch learns how many files there are, of each file, and of what was read of it.
pub fn read_root<D: Disk, W: Watch>(
    alloc: Global,
    disk: &mut D,
    device: &DeviceName,
    folder: &str,
    watch: &W,
) -> Result<Listing, ScanFault>
    requires { IsFresh (D.has_failed disk.old) (D.entries disk.old) (D.faults disk.old) }
    ensures known { IsTrue D.is_known → IsScan (D.tree disk.old) folder.now device.now result }
    ensures device { IfOk result (λ listing. listing.device ≡ device.now) }
    ensures failed { D.has_failed disk.new ≡ is_unlisted result }
    ensures entries { HasMet 100000 (D.entries disk.new) result }
    ensures faults { HasFaults (D.faults disk.new) result }
{
    read_root_within(alloc, disk, device, folder, MOST_ENTRIES, watch)
}

/// Reads all files of a folder as `read_root` does, with so many entries at most.
///
/// # Errors
///
/// As those of `read_root`, but `TooMany` past so many entries.
pub fn read_root_within<D: Disk, W: Watch>(
    alloc: Global,
    disk: &mut D,
    device: &DeviceName,
    folder: &str,
    most: u64,
    watch: &W,
) -> Result<Listing, ScanFault>
    requires fresh { IsFresh (D.has_failed disk.old) (D.entries disk.old) (D.faults disk.old) }
    requires few { most ≤ 1000000 }
    ensures known { IsTrue D.is_known → IsScanWithin most (D.tree disk.old) folder.now device.now result }
    ensures device { IfOk result (λ listing. listing.device ≡ device.now) }
    ensures failed { D.has_failed disk.new ≡ is_unlisted result }
    ensures entries { HasMet most (D.entries disk.new) result }
    ensures faults { HasFaults (D.faults disk.new) result }
{
    let Files { paths, skipped } = list_files(alloc, disk, folder, most)?;
    watch.files_listed(paths.len());
    let rows = look_at(alloc, disk, folder, paths, watch)?;
    Ok(Listing::of_rows(device.copy_of(), rows, skipped))
}

/// Reads all files of a folder as `read_root_within` does, and on all processors: one disk lists
/// the folders, and each of the others looks at its part of the files, in a thread of its own where one can be made.
///
/// # Errors
///
/// As those of `read_root_within`. The other disks are lost then.
pub fn read_root_in_threads<R: Threads + Sync, D: Disk, L: Disk + Send + Drop, W: Watch + Sync>(
    threads: &R,
    alloc: Global,
    disk: &mut D,
    others: &mut Vec<L>,
    device: &DeviceName,
    folder: &str,
    most: u64,
    watch: &W,
) -> Result<Listing, ScanFault>
    requires fresh { IsFresh (D.has_failed disk.old) (D.entries disk.old) (D.faults disk.old) }
    requires few { most ≤ 1000000 }
    requires some { 0 < length others.old.items }

    // All disks have the same files.
    requires known { IsTrue D.is_known → IsTrue L.is_known × HaveFiles L.tree (D.tree disk.old) others.old.items }
    ensures known { IsTrue D.is_known → IsScanWithin most (D.tree disk.old) folder.now device.now result }
    ensures device { IfOk result (λ listing. listing.device ≡ device.now) }
    ensures failed { D.has_failed disk.new ≡ is_unlisted result }
    ensures entries { HasMet most (D.entries disk.new) result }
    ensures others { IfOk result (λ listing. length others.new.items ≡ length others.old.items) }
    ensures faults { IfOk result (λ listing. D.faults disk.new + sum_by L.faults others.new.items ≤ sum_by L.faults others.old.items + unreadable_count listing.rows) }
{
    let Files { paths, skipped } = list_files(alloc, disk, folder, most)?;
    watch.files_listed(paths.len());
    let disks = mem::replace(others, Vec::new(alloc));
    let Looked { disks, mut rows } = look_in_threads(threads, alloc, disks, folder, paths, watch)?;
    *others = disks;
    rows.sort_by(|one, other| path_order(&one.path, &other.path))?;
    Ok(Listing::of_rows(device.copy_of(), rows, skipped))
}

/// Lists the root and all folders in it: all files, each once.
fn list_files<D: Disk>(
    alloc: Global,
    disk: &mut D,
    root: &str,
    most: u64,
) -> Result<Files, ScanFault>
    requires fresh { IsFresh (D.has_failed disk.old) (D.entries disk.old) (D.faults disk.old) }
    requires few { most ≤ 1000000 }
    ensures known { IsTrue D.is_known → AreFiles most (D.tree disk.old) root.now result }
    ensures rise { IfOk result (λ files. IsStrictlySortedBy path_cmp files.paths.items) }
    ensures tree { IsTrue D.is_known → D.tree disk.new ≡ D.tree disk.old }
    ensures failed { D.has_failed disk.new ≡ is_unlisted result }
    ensures entries { HasMet most (D.entries disk.new) result }
    ensures faults { D.faults disk.new ≡ 0 }
{
    let Gathered {
        mut files,
        skipped,
        ..
    } = gather(alloc, disk, root, most)?;
    files.sort_by(|one, other| path_order(one, other))?;
    files.dedup();
    Ok(Files {
        paths: files,
        skipped,
    })
}

/// Lists the root and all folders in it.
fn gather<D: Disk>(
    alloc: Global,
    disk: &mut D,
    root: &str,
    most: u64,
) -> Result<Gathered, ScanFault>
    requires fresh { IsFresh (D.has_failed disk.old) (D.entries disk.old) (D.faults disk.old) }
    requires few { most ≤ 1000000 }
    ensures known { IsTrue D.is_known → IsGathered most (D.tree disk.old) root.now result }
    ensures tree { IsTrue D.is_known → D.tree disk.new ≡ D.tree disk.old }
    ensures failed { D.has_failed disk.new ≡ is_unlisted result }
    ensures entries { HasMet most (D.entries disk.new) result }
    ensures faults { D.faults disk.new ≡ 0 }
{
    let first = FolderAt {
        path: None,
        levels: MOST_LEVELS,
    };
    let mut gathered = Gathered {
        folders: vec![in alloc; first]?,
        files: Vec::new(alloc),
        skipped: 0,
    };
    while let Some(folder) = gathered.folders.pop() {
        let read = read_folder(alloc, disk, root, &folder, most, &mut gathered);
        drop(folder);
        match read {
            Ok(()) => {}
            Err(fault) => {
                drop(gathered);
                return Err(fault);
            }
        }
    }
    Ok(gathered)
}

/// Lists one folder, the root or one inside it, and keeps what is met.
fn read_folder<D: Disk>(
    alloc: Global,
    disk: &mut D,
    root: &str,
    folder: &FolderAt,
    most: u64,
    gathered: &mut Gathered,
) -> Result<(), ScanFault>
    requires failed { D.has_failed disk.old ≡ false }
    requires few { most ≤ 1000000 }
    requires entries { D.entries disk.old ≤ most }
    ensures known { IsTrue D.is_known → IsFolderRead most (D.tree disk.old) root.now folder.now (D.entries disk.old) gathered.old result (D.entries disk.new) gathered.new }
    ensures tree { IsTrue D.is_known → D.tree disk.new ≡ D.tree disk.old }
    ensures failed { D.has_failed disk.new ≡ is_unlisted result }
    ensures entries { HasMet most (D.entries disk.new) result }
    ensures faults { D.faults disk.new ≡ D.faults disk.old }
    ensures grows { OnOk result (length gathered.new.folders.items + D.entries disk.old ≤ length gathered.old.folders.items + D.entries disk.new) }
{
    let Some(levels) = folder.levels.checked_sub(1) else {
        return Err(ScanFault::TooNested);
    };
    list_folder(alloc, disk, root, folder.path.as_ref())?;
    while let Some(entry) = disk.next(alloc)? {
        if disk.met() > most {
            drop(entry);
            return Err(ScanFault::TooMany);
        }
        let kept = gathered.meet(alloc, folder.path.as_ref(), levels, &entry);
        drop(entry);
        kept?;
    }
    Ok(())
}

/// Begins to list a folder, the root or one inside it.
fn list_folder<D: Disk>(
    alloc: Global,
    disk: &mut D,
    root: &str,
    folder: Option<&CopyPath>,
) -> Result<(), DiskFault>
    ensures begins { IsTrue D.is_known → Begins ((D.tree disk.old).names (whole_text root.now (option_copied folder.entry))) result (D.names disk.new) }
    ensures tree { IsTrue D.is_known → D.tree disk.new ≡ D.tree disk.old }
    ensures failed { D.has_failed disk.new ≡ (D.has_failed disk.old || is_failure result) }
    ensures entries { D.entries disk.new ≡ D.entries disk.old }
    ensures faults { D.faults disk.new ≡ D.faults disk.old }
{
    let whole = whole_path(alloc, root, folder)?;
    let listed = disk.list(whole.as_str());
    drop(whole);
    listed
}

impl Gathered {
    /// Keeps a file, or a folder from which so many levels may be listed; counts one whose path isn't a copy's path.
    fn meet(
        &mut self,
        alloc: Global,
        folder: Option<&CopyPath>,
        levels: u64,
        entry: &Entry,
    ) -> Result<(), AllocError>
        ensures folders { OnOk result (self.new.folders.items ≡ self.old.folders.items ++ option_to_list (inner_folder (option_copied folder.entry) levels entry.now)) }
        ensures files { OnOk result (self.new.files.items ≡ self.old.files.items ++ option_to_list (file_in (option_copied folder.entry) entry.now)) }
        ensures skipped { OnOk result (self.new.skipped ≡ (if is_skipped (option_copied folder.entry) entry.now then counted self.old.skipped 1 else self.old.skipped)) }
    {
        match entry {
            Entry::Named { name, kind } => {
                if *kind == Kind::Other {
                    return Ok(());
                }
                let path = inner_path(alloc, folder, name.as_str())?;
                self.keep(*kind, path, levels)
            }
            Entry::NotText => {
                self.skipped = self.skipped.saturating_add(1);
                Ok(())
            }
        }
    }

    /// Keeps a path, as a folder's or a file's; counts one that isn't a copy's path.
    fn keep(&mut self, kind: Kind, path: Option<CopyPath>, levels: u64) -> Result<(), AllocError>
        ensures folders { OnOk result (self.new.folders.items ≡ self.old.folders.items ++ kept_folder kind path levels) }
        ensures files { OnOk result (self.new.files.items ≡ self.old.files.items ++ kept_file kind path) }
        ensures skipped { OnOk result (self.new.skipped ≡ (if is_some path then self.old.skipped else counted self.old.skipped 1)) }
    {
        let Some(path) = path else {
            self.skipped = self.skipped.saturating_add(1);
            return Ok(());
        };
        match kind {
            Kind::Folder => self.folders.push(FolderAt {
                path: Some(path),
                levels,
            })?,
            Kind::File | Kind::Gone | Kind::Other => self.files.push(path)?,
        }
        Ok(())
    }
}

/// The path of a name in a folder, or none where that isn't a copy's path.
fn inner_path(
    alloc: Global,
    folder: Option<&CopyPath>,
    name: &str,
) -> Result<Option<CopyPath>, AllocError>
    ensures { IfOk result (λ path. path ≡ path_in (option_copied folder.entry) name.now) }
{
    let taken = match folder {
        Some(folder) => {
            let text = format!(in alloc; "{}/{name}", folder.as_str())?;
            CopyPath::new(alloc, text.as_str())
        }
        None => CopyPath::new(alloc, name),
    };
    match taken {
        Ok(path) => Ok(Some(path)),
        Err(NameFault::OutOfMemory) => Err(AllocError),
        Err(_) => Ok(None),
    }
}

/// The path by which the disk knows what is inside the root, or the root itself.
pub(crate) fn whole_path(
    alloc: Global,
    root: &str,
    inner: Option<&CopyPath>,
) -> Result<String, AllocError>
    ensures { IfOk result (λ path. string_bytes path ≡ whole_text root.now (option_copied inner.entry)) }
{
    match inner {
        Some(inner) => format!(in alloc; "{root}/{}", inner.as_str()),
        None => String::from_str(alloc, root),
    }
}
