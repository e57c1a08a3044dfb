//! Files that are looked at, by one disk or by many at once.
ghost use Rattle.std.specs.Prelude.{◌≡◌, ◌+◌, ◌≤◌, ◌<◌, ◌++◌, IsTrue, Some, length, map, if◌then◌else◌, IfOk, OnOk};
ghost use Rattle.std.specs.List.Sorted.{IsPermutation};
ghost use denote.Param.Send.{IsSend, IsSync};
ghost use Rattle.pana_scan.specs.Names.{whole_text};
ghost use Rattle.pana_scan.specs.Scan.{found_of, is_unreadable, row_at, unreadable_count};
ghost use Rattle.pana_scan.specs.inner.Look.{AreLookedAt, AreMerged};

use crate::disk::Disk;
use crate::disk_fault::DiskFault;
use crate::fingerprinting::fingerprint;
use crate::folder::whole_path;
use crate::listing::{Found, FoundRow};
use crate::watch::Watch;
use pana_copies::CopyPath;
use std::alloc::{AllocError, Global};
use std::marker::{Send, Sync};
use std::thread::{Threads, join};

/// How often a file is read at most.
const MOST_READS: u64 = 16_777_216;

/// Disks that have looked at files, and what they found.
#[derive(Drop)]
pub(crate) struct Looked<D> {
    pub(crate) disks: Vec<D>,
    pub(crate) rows: Vec<FoundRow>,
}

/// What is found of a file.
fn found<D: Disk, W: Watch>(disk: &mut D, file: &str, watch: &W) -> Result<Found, AllocError>
    ensures known { IfOk result (λ found. IsTrue D.is_known → found ≡ found_of ((D.tree disk.old).content file.now)) }
    ensures tree { IsTrue D.is_known → D.tree disk.new ≡ D.tree disk.old }
    ensures failed { D.has_failed disk.new ≡ D.has_failed disk.old }
    ensures entries { D.entries disk.new ≡ D.entries disk.old }
    ensures faults { IfOk result (λ found. D.faults disk.new ≤ (if is_unreadable found then D.faults disk.old + 1 else D.faults disk.old)) }
{
    watch.file_begun();
    if let Some(digest) = disk.recall(file) {
        return Ok(Found::Seen(digest));
    }
    match disk.open(file) {
        Ok(()) => {}
        Err(DiskFault::OutOfMemory) => return Err(AllocError),
        Err(DiskFault::Failed) => return Ok(Found::Unreadable),
    }
    Ok(match fingerprint(disk, MOST_READS, watch) {
        Some(digest) if disk.settle(file, &digest) => Found::Seen(digest),
        _ => Found::Unreadable,
    })
}

/// What is found of the file with this path below the root.
fn found_at<D: Disk, W: Watch>(
    alloc: Global,
    disk: &mut D,
    root: &str,
    path: &CopyPath,
    watch: &W,
) -> Result<Found, AllocError>
    ensures known { IfOk result (λ found. IsTrue D.is_known → found ≡ found_of ((D.tree disk.old).content (whole_text root.now (Some path.now)))) }
    ensures tree { IsTrue D.is_known → D.tree disk.new ≡ D.tree disk.old }
    ensures failed { D.has_failed disk.new ≡ D.has_failed disk.old }
    ensures entries { D.entries disk.new ≡ D.entries disk.old }
    ensures faults { IfOk result (λ found. D.faults disk.new ≤ (if is_unreadable found then D.faults disk.old + 1 else D.faults disk.old)) }
{
    let whole = whole_path(alloc, root, Some(path))?;
    let found = found(disk, whole.as_str(), watch);
    drop(whole);
    found
}

/// Looks at each of these files, in order.
pub(crate) fn look_at<D: Disk, W: Watch>(
    alloc: Global,
    disk: &mut D,
    root: &str,
    files: Vec<CopyPath>,
    watch: &W,
) -> Result<Vec<FoundRow>, AllocError>
    ensures paths { IfOk result (λ rows. map (λ row. row.path) rows.items ≡ files.items) }
    ensures known { IfOk result (λ rows. IsTrue D.is_known → rows.items ≡ map (row_at (D.tree disk.old) root.now) files.items) }
    ensures failed { D.has_failed disk.new ≡ D.has_failed disk.old }
    ensures entries { D.entries disk.new ≡ D.entries disk.old }
    ensures faults { IfOk result (λ rows. D.faults disk.new ≤ D.faults disk.old + unreadable_count rows.items) }
{
    let mut rows = Vec::new(alloc);
    for path in files {
        match found_at(alloc, disk, root, &path, watch) {
            Ok(found) => rows.push(FoundRow { path, found })?,
            Err(fault) => {
                drop(path);
                drop(rows);
                return Err(fault);
            }
        }
    }
    Ok(rows)
}

/// Looks at these files by one of the disks.
fn look_by_one<D: Disk + Drop, W: Watch>(
    alloc: Global,
    mut disks: Vec<D>,
    root: &str,
    files: Vec<CopyPath>,
    watch: &W,
) -> Result<Looked<D>, AllocError>
    requires { 0 < length disks.items }
    ensures { IfOk result (λ all. AreLookedAt D.is_known D.tree D.faults root.now files.items disks.items all.rows.items all.disks.items) }
{
    let Some(mut disk) = disks.pop() else {
        unreachable!()
    };
    let rows = look_at(alloc, &mut disk, root, files, watch)?;
    disks.push(disk)?;
    Ok(Looked { disks, rows })
}

impl<D: Drop> Looked<D> {
    /// Takes over the disks of the other, and what they have found.
    fn append(&mut self, rest: &mut Looked<D>) -> Result<(), AllocError>
        ensures disks { OnOk result (self.new.disks.items ≡ self.old.disks.items ++ rest.old.disks.items) }
        ensures rows { OnOk result (self.new.rows.items ≡ self.old.rows.items ++ rest.old.rows.items) }
    {
        self.disks.append(&mut rest.disks)?;
        self.rows.append(&mut rest.rows)?;
        Ok(())
    }
}

/// The disks of both, and what they have found.
fn merged<D: Drop>(
    one: Result<Looked<D>, AllocError>,
    other: Result<Looked<D>, AllocError>,
) -> Result<Looked<D>, AllocError>
    ensures { IfOk result (AreMerged one other) }
{
    let mut all = match one {
        Ok(all) => all,
        Err(fault) => {
            drop(other);
            return Err(fault);
        }
    };
    let mut rest = match other {
        Ok(rest) => rest,
        Err(fault) => {
            drop(all);
            return Err(fault);
        }
    };
    let appended = all.append(&mut rest);
    drop(rest);
    match appended {
        Ok(()) => Ok(all),
        Err(fault) => {
            drop(all);
            Err(fault)
        }
    }
}

/// Deals files out in two parts, one file to each in turn, so that neighbours, which are often alike, are looked at by
/// several disks.
fn deal(alloc: Global, files: Vec<CopyPath>) -> Result<(Vec<CopyPath>, Vec<CopyPath>), AllocError>
    ensures { IfOk result (λ parts. IsPermutation files.items (parts.0.items ++ parts.1.items)) }
{
    let mut one = Vec::new(alloc);
    let mut other = Vec::new(alloc);
    let mut is_next = true;
    for path in files {
        if is_next {
            one.push(path)?;
        } else {
            other.push(path)?;
        }
        is_next = !is_next;
    }
    Ok((one, other))
}

/// Looks at each of these files once, by one of the disks, and all disks at once: each in a thread of its own, where one
/// can be made.
#[cycle(looks)]
pub(crate) fn look_in_threads<R: Threads + Sync, D: Disk + Send + Drop, W: Watch + Sync>(
    threads: &R,
    alloc: Global,
    mut disks: Vec<D>,
    root: &str,
    files: Vec<CopyPath>,
    watch: &W,
) -> Result<Looked<D>, AllocError>
    requires { 0 < length disks.items }
    ensures { IfOk result (λ all. AreLookedAt D.is_known D.tree D.faults root.now files.items disks.items all.rows.items all.disks.items) }
{
    if disks.len() < 2 || files.len() < 2 {
        return look_by_one(alloc, disks, root, files, watch);
    }
    let more = match disks.split_off(disks.len() / 2) {
        Ok(more) => more,
        Err(_) => {
            drop(disks);
            drop(files);
            return Err(AllocError);
        }
    };
    let (mine, theirs) = match deal(alloc, files) {
        Ok(parts) => parts,
        Err(fault) => {
            drop(disks);
            drop(more);
            return Err(fault);
        }
    };
    let front = move || -> Result<Looked<D>, AllocError>
        requires { IsSync R.row × IsSync W.row × IsSend D.row × (0 < length disks.items) }
        ensures { IfOk result (λ all. AreLookedAt D.is_known D.tree D.faults root.entry.now mine.items disks.items all.rows.items all.disks.items) }
    { look_in_threads(threads, alloc, disks, root, mine, watch) };
    let back = move || -> Result<Looked<D>, AllocError>
        requires { IsSync R.row × IsSync W.row × IsSend D.row × (0 < length more.items) }
        ensures { IfOk result (λ all. AreLookedAt D.is_known D.tree D.faults root.entry.now theirs.items more.items all.rows.items all.disks.items) }
    { look_in_threads(threads, alloc, more, root, theirs, watch) };
    let (one, other) = join(threads, front, back);
    merged(one, other)
}
