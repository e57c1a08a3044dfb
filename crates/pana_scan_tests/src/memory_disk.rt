//! A disk in memory, for tests.
ghost use Rattle.std.specs.Prelude.{◌≡◌, true, string_bytes, position};
ghost use Rattle.std.specs.Str.{bytes_eq};
ghost use Rattle.pana_scan.specs.Listing.{counted};

use pana_scan::{Disk, DiskFault, Entry};
use std::alloc::Global;

/// A folder by its whole path: the entries that listing it gives, and whether it fails after them.
#[derive(Drop)]
pub struct MemoryFolder {
    pub path: String,
    pub entries: Vec<Entry>,
    pub fails: bool,
}

/// A file by its whole path: its bytes, each of which is a read of its own, and whether reading fails after them.
#[derive(Drop)]
pub struct MemoryFile {
    pub path: String,
    pub bytes: Vec<u8>,
    pub fails: bool,
}

/// A disk in memory, for tests. Any other folder can't be listed, and any other file can't be opened.
#[derive(Drop)]
pub struct MemoryDisk {
    folders: Vec<MemoryFolder>,
    files: Vec<MemoryFile>,
    /// Which folder is listed, and how many entries it has given.
    folder: usize,
    given: usize,
    /// Which file is open, and how many bytes it has given.
    file: usize,
    read: usize,
    has_failed: bool,
    entries: u64,
    faults: u64,
}

impl MemoryDisk {
    ghost use Rattle.pana_scan.specs.Scan.{IsFresh};

    /// The disk with these folders and files. Takes no memory.
    pub fn new(folders: Vec<MemoryFolder>, files: Vec<MemoryFile>) -> MemoryDisk
        ensures folders { result.folders.items ≡ folders.items }
        ensures files { result.files.items ≡ files.items }
        ensures fresh { IsFresh result.has_failed result.entries result.faults }
    {
        MemoryDisk {
            folder: folders.len(),
            given: 0,
            file: files.len(),
            read: 0,
            folders,
            files,
            has_failed: false,
            entries: 0,
            faults: 0,
        }
    }

    fn list_failed(&mut self) -> DiskFault
        ensures fault { result ≡ DiskFault.Failed }
        ensures disk { self.new ≡ record self.old { has_failed = true } }
    {
        self.has_failed = true;
        DiskFault::Failed
    }

    fn file_failed(&mut self) -> DiskFault
        ensures fault { result ≡ DiskFault.Failed }
        ensures disk { self.new ≡ record self.old { faults = counted self.old.faults 1 } }
    {
        self.faults = self.faults.saturating_add(1);
        DiskFault::Failed
    }
}

/// Which of the folders has this path first.
fn folder_at(folders: &[MemoryFolder], path: &str) -> Option<usize>
    ensures { result ≡ position (λ folder. bytes_eq (string_bytes folder.path) path.now) folders.now }
{
    folders
        .iter()
        .position(|folder| folder.path.as_str() == path)
}

/// Which of the files has this path first.
fn file_at(files: &[MemoryFile], path: &str) -> Option<usize>
    ensures { result ≡ position (λ file. bytes_eq (string_bytes file.path) path.now) files.now }
{
    files.iter().position(|file| file.path.as_str() == path)
}

impl Disk for MemoryDisk {
    ghost use Rattle.pana_scan_tests.specs.Memory.{tree_of, names_of, content_of};

    ghost is_known = { true };

    ghost tree = { tree_of };

    ghost names = { names_of };

    ghost content = { content_of };

    ghost has_failed = { λ disk. disk.has_failed };

    ghost entries = { λ disk. disk.entries };

    ghost faults = { λ disk. disk.faults };

    fn met(&self) -> u64 {
        self.entries
    }

    fn list(&mut self, folder: &str) -> Result<(), DiskFault> {
        match folder_at(self.folders.as_slice(), folder) {
            Some(at) => {
                self.folder = at;
                self.given = 0;
                Ok(())
            }
            None => Err(self.list_failed()),
        }
    }

    fn next(&mut self, _alloc: Global) -> Result<Option<Entry>, DiskFault> {
        let Some(folder) = self.folders.get(self.folder) else {
            return Err(self.list_failed());
        };
        if let Some(entry) = folder.entries.get(self.given) {
            let entry = entry.copy_of()?;
            self.given += 1;
            self.entries = self.entries.saturating_add(1);
            return Ok(Some(entry));
        }
        if folder.fails {
            return Err(self.list_failed());
        }
        Ok(None)
    }

    fn open(&mut self, file: &str) -> Result<(), DiskFault> {
        match file_at(self.files.as_slice(), file) {
            Some(at) => {
                self.file = at;
                self.read = 0;
                Ok(())
            }
            None => Err(self.file_failed()),
        }
    }

    fn read(&mut self, piece: &mut [u8]) -> Result<usize, DiskFault> {
        let Some(file) = self.files.get(self.file) else {
            return Err(self.file_failed());
        };
        if let Some(byte) = file.bytes.get(self.read) {
            piece[0] = *byte;
            self.read += 1;
            return Ok(1);
        }
        if file.fails {
            return Err(self.file_failed());
        }
        Ok(0)
    }
}
