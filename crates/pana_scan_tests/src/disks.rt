//! Disks in memory, for the tests.
ghost use Rattle.std.specs.Prelude.{IfOk};
ghost use Rattle.pana_scan.specs.Scan.{IsFresh};

use crate::memory_disk::{MemoryDisk, MemoryFile, MemoryFolder};
use pana_scan::{Entry, EntryName, Kind};
use std::alloc::{AllocError, Global};

/// A folder with these names, which fails after them or doesn't.
pub fn folder(
    alloc: Global,
    path: &str,
    names: &[(&str, Kind)],
    fails: bool,
) -> Result<MemoryFolder, AllocError> {
    let mut entries = Vec::new(alloc);
    for (name, kind) in names {
        let name = EntryName::new(alloc, name)?;
        entries.push(Entry::Named { name, kind: *kind })?;
    }
    Ok(MemoryFolder {
        path: String::from_str(alloc, path)?,
        entries,
        fails,
    })
}

/// A file with these bytes, which fails after them or doesn't.
pub fn file(
    alloc: Global,
    path: &str,
    bytes: &[u8],
    fails: bool,
) -> Result<MemoryFile, AllocError> {
    Ok(MemoryFile {
        path: String::from_str(alloc, path)?,
        bytes: bytes.to_vec(alloc)?,
        fails,
    })
}

/// The disk with one folder and one file at most.
pub fn disk(
    alloc: Global,
    folder: MemoryFolder,
    file: Option<MemoryFile>,
) -> Result<MemoryDisk, AllocError>
    ensures { IfOk result (λ disk. IsFresh disk.has_failed disk.entries disk.faults) }
{
    let mut folders = Vec::new(alloc);
    folders.push(folder)?;
    let mut files = Vec::new(alloc);
    if let Some(file) = file {
        files.push(file)?;
    }
    Ok(MemoryDisk::new(folders, files))
}
