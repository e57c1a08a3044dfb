//! Folders that are tracked, read side by side on all processors.

use crate::folder_watch::FolderWatch;
use crate::naming::NamedFolder;
use crate::patterns::{OwnFile, is_within, passed_over, root_patterns, slices_of};
use crate::sums_file::{keep_sums, read_sums, sums_name};
use crate::system_disks::{PassedOver, SystemDisks, read_in_threads};
use pana_roots::{Disks, Root};
use pana_scan::{KnownSums, Sums};
use pana_streams::ProgramFault;
use pana_track::ReadFolder;
use std::alloc::AllocError;
use std::fs;
use std::marker::Sync;
use std::path::PathBuf;
use std::thread::Threads;

/// How folders are to be read.
#[derive(Clone, Copy)]
pub struct ReadingWishes<'a> {
    /// The journal's file, where one keeps the reports: it is passed over, and what is kept beside it, as sums are.
    pub journal: Option<&'a str>,
    /// The file that keeps sums; that beside the journal where there is no name.
    pub sums: Option<&'a str>,
    /// Patterns of paths that are passed over.
    pub ignored: &'a [&'a str],
    /// Whether files are read also where they haven't changed.
    pub reads_all: bool,
    /// Whether folders of other file systems than a root's are passed over.
    pub stays: bool,
    /// Whether what is passed over is named on standard error.
    pub is_verbose: bool,
}

/// What stands against the folders, if something does: one is no folder, or lies within another. A folder that isn't there is
/// left to the scan.
pub fn fault_of_roots(rt: &HostRuntime, roots: &[Root<'_>]) -> Result<Option<String>, AllocError> {
    let mut wholes = Vec::new(rt.alloc());
    let fault = fault_among(rt, roots, &mut wholes);
    drop(wholes);
    fault
}

/// What stands against the folders, if something does. The whole paths of those before it are taken up.
fn fault_among(
    rt: &HostRuntime,
    roots: &[Root<'_>],
    wholes: &mut Vec<PathBuf>,
) -> Result<Option<String>, AllocError> {
    for root in roots {
        let Ok(whole) = fs::canonicalize(rt, root.folder) else {
            continue;
        };
        if let Some(fault) = fault_of_root(rt, root.folder, whole.as_str(), wholes.as_slice())? {
            drop(whole);
            return Ok(Some(fault));
        }
        wholes.push(whole)?;
    }
    Ok(None)
}

/// What stands against a folder with this whole path, beside those with these.
fn fault_of_root(
    rt: &HostRuntime,
    folder: &str,
    whole: &str,
    others: &[PathBuf],
) -> Result<Option<String>, AllocError> {
    let alloc = rt.alloc();
    if is_no_folder(rt, folder) {
        Ok(Some(format!(in alloc; "{folder} is no folder")?))
    } else if is_near(whole, others) {
        Ok(Some(format!(in alloc; "{folder} and another folder are one within the other")?))
    } else {
        Ok(None)
    }
}

fn is_no_folder(rt: &HostRuntime, name: &str) -> bool {
    matches!(fs::metadata(rt, name), Ok(found) if !found.is_dir())
}

/// Whether one of the folders lies within this one, or this one within it.
fn is_near(whole: &str, others: &[PathBuf]) -> bool {
    for other in others {
        if is_within(whole, other.as_str()) || is_within(other.as_str(), whole) {
            return true;
        }
    }
    false
}

/// The name of the file that keeps sums, where one does.
fn name_of_sums(rt: &HostRuntime, wishes: ReadingWishes<'_>) -> Result<Option<String>, AllocError> {
    Ok(match (wishes.sums, wishes.journal) {
        (Some(name), _) => Some(String::from_str(rt.alloc(), name)?),
        (None, Some(journal)) => Some(sums_name(rt, journal)?),
        (None, None) => None,
    })
}

/// The sums that the file with this name has, or none where there is no name, or all files are to be read.
fn known_sums(rt: &HostRuntime, name: Option<&str>, reads_all: bool) -> Result<Sums, AllocError> {
    let alloc = rt.alloc();
    match name {
        Some(name) if !reads_all => {
            let known = KnownSums::of(alloc, read_sums(rt, name)?)?;
            Ok(Sums::of(alloc, known))
        }
        _ => Ok(Sums::none(alloc)),
    }
}

/// The folder of a root, where what is passed over in it is to be named.
fn named_folder<'a>(root: &'a Root<'_>, wishes: ReadingWishes<'_>) -> Option<NamedFolder<'a>> {
    if !wishes.is_verbose {
        return None;
    }
    Some(NamedFolder {
        folder: root.folder,
        device: Some(root.device.as_str()),
    })
}

/// Reads a folder on all processors, and keeps the sums of its files. The watch follows.
fn read_watched<T: Threads + Sync>(
    rt: &HostRuntime,
    threads: &T,
    disks: &SystemDisks<'_, '_, '_, '_>,
    root: &Root<'_>,
    watch: &FolderWatch<'_>,
    sums: &mut Sums,
) -> Result<ReadFolder, AllocError> {
    let alloc = rt.alloc();
    let first = disks.disk(Sums::none(alloc));
    let given = read_in_threads(
        threads,
        alloc,
        disks,
        first,
        root,
        watch.naming(),
        watch,
        sums,
    )?;
    let device = root.device.copy_of();
    Ok(ReadFolder { device, given })
}

/// Reads a folder, and shows meanwhile how far that is and, where it is wanted, what is passed over.
fn read<T: Threads + Sync>(
    rt: &HostRuntime,
    threads: &T,
    disks: &SystemDisks<'_, '_, '_, '_>,
    root: &Root<'_>,
    wishes: ReadingWishes<'_>,
    sums: &mut Sums,
) -> Result<ReadFolder, AllocError> {
    let watch = FolderWatch::new(rt, named_folder(root, wishes));
    let folder = read_watched(rt, threads, disks, root, &watch, sums);
    match watch.end() {
        Ok(()) => folder,
        Err(fault) => {
            drop(folder);
            Err(fault)
        }
    }
}

/// Reads the folders, one after another, without what is passed over there. Files that haven't changed since an earlier run
/// aren't read.
fn read_without<T: Threads + Sync>(
    rt: &HostRuntime,
    threads: &T,
    roots: &[Root<'_>],
    wishes: ReadingWishes<'_>,
    passed_over: &[PassedOver<'_, '_>],
) -> Result<Vec<ReadFolder>, ProgramFault> {
    let name = name_of_sums(rt, wishes)?;
    let known = name.as_ref().map(|name| name.as_str());
    let folders = read_with_sums(rt, threads, roots, wishes, passed_over, known);
    drop(name);
    folders
}

/// Reads the folders with the sums that the file with this name has, where there is a name, and keeps them there.
fn read_with_sums<T: Threads + Sync>(
    rt: &HostRuntime,
    threads: &T,
    roots: &[Root<'_>],
    wishes: ReadingWishes<'_>,
    passed_over: &[PassedOver<'_, '_>],
    name: Option<&str>,
) -> Result<Vec<ReadFolder>, ProgramFault> {
    let mut sums = known_sums(rt, name, wishes.reads_all)?;
    let mut folders = Vec::new(rt.alloc());
    let read = read_each(
        rt,
        threads,
        roots,
        wishes,
        passed_over,
        &mut sums,
        &mut folders,
    );
    let kept = match (read, name) {
        (Ok(()), Some(name)) => keep_sums(rt, name, &sums.kept),
        (read, _) => read,
    };
    drop(sums);
    match kept {
        Ok(()) => Ok(folders),
        Err(_) => {
            drop(folders);
            Err(ProgramFault::OutOfMemory)
        }
    }
}

/// Reads the folders, one after another.
fn read_each<T: Threads + Sync>(
    rt: &HostRuntime,
    threads: &T,
    roots: &[Root<'_>],
    wishes: ReadingWishes<'_>,
    passed_over: &[PassedOver<'_, '_>],
    sums: &mut Sums,
    folders: &mut Vec<ReadFolder>,
) -> Result<(), AllocError> {
    let disks = SystemDisks {
        files: rt,
        stays: wishes.stays,
        passed_over,
    };
    for root in roots {
        folders.push(read(rt, threads, &disks, root, wishes, sums)?)?;
    }
    Ok(())
}

/// The program's own files.
pub(crate) fn own_files<'a>(
    rt: &HostRuntime,
    wishes: ReadingWishes<'a>,
) -> Result<Vec<OwnFile<'a>>, AllocError> {
    let mut own = Vec::new(rt.alloc());
    if let Some(name) = wishes.journal {
        own.push(OwnFile::journal(name))?;
    }
    if let Some(name) = wishes.sums {
        own.push(OwnFile::sums(name))?;
    }
    Ok(own)
}

/// Reads the folders, each without what is passed over there.
pub fn read_folders<T: Threads + Sync>(
    rt: &HostRuntime,
    threads: &T,
    roots: &[Root<'_>],
    wishes: ReadingWishes<'_>,
) -> Result<Vec<ReadFolder>, ProgramFault> {
    let own = own_files(rt, wishes)?;
    let patterns = root_patterns(rt, roots, own.as_slice(), wishes.ignored)?;
    let all = patterns.as_slice();
    let slices = slices_of(rt, all)?;
    let passed = passed_over(rt, all, slices.as_slice())?;
    read_without(rt, threads, roots, wishes, passed.as_slice())
}
