//! How files and folders look: names, and what the system says of each file without reading it.

use crate::own_file::bytes_of;
use pana_ignore::Patterns;
use pana_scan::FoundRow;
use sha2::{Digest, Sha256};
use std::fs::{self, DirEntry, File, Metadata, ReadDir};
use std::io::{ErrorKind, Read, Seek, SeekFrom};
use std::os::unix::fs::MetadataExt;

/// How many folders are looked at at most.
const MOST_FOLDERS: u32 = 1_000_000;

/// How many seconds ago a file must have changed last. One that has changed since may change again and look the same.
const SETTLED_SECONDS: i64 = 3;

/// The name of the file with a root's patterns, and how many bytes it has at most.
const IGNORE_FILE: &str = ".panadignore";

const MOST_PATTERN_BYTES: u64 = 1_048_576;

/// How many bytes at a file's end are looked at.
const END_BYTES: u64 = 4_096;

/// A folder that is looked at, with all below it that its patterns don't ignore.
#[derive(Clone, Copy)]
struct Tree<'a> {
    root: &'a str,
    patterns: &'a Patterns,
    /// The file system on which folders are entered, where it is one alone.
    file_system: Option<u64>,
    /// The files that a scan has found, where there was one: then just these have to be there.
    found: Option<&'a [FoundRow]>,
}

impl Tree<'_> {
    /// Whether what the system says this of lies on a file system that isn't entered.
    fn is_elsewhere(&self, found: &Metadata) -> bool {
        match self.file_system {
            Some(own) => own != found.dev(),
            None => false,
        }
    }

    /// Whether the scan, where there was one, has found a file with this path below the root.
    fn has_found(&self, path: &str) -> bool {
        match self.found {
            Some(rows) => rows
                .binary_search_by(|row| row.path.as_str().cmp(path))
                .is_ok(),
            None => true,
        }
    }

    /// Whether the scan, where there was one, has found so many files.
    fn has_found_all(&self, count: usize) -> bool {
        match self.found {
            Some(rows) => rows.len() == count,
            None => true,
        }
    }
}

/// The text of a root's file of patterns, empty where there is none; none where it can't be read.
fn text_of_patterns(rt: &HostRuntime, root: &str) -> Option<Vec<u8>> {
    let name = format!(in rt.alloc(); "{root}/{IGNORE_FILE}").ok()?;
    match fs::symlink_metadata(rt, name.as_str()) {
        Ok(found) if found.is_file() => bytes_of(rt, name.as_str(), MOST_PATTERN_BYTES).ok(),
        Ok(_) => Some(Vec::new(rt.alloc())),
        Err(error) if error.kind() == ErrorKind::NotFound => Some(Vec::new(rt.alloc())),
        Err(_) => None,
    }
}

/// Takes up how things look. Each call returns none where something can't be looked at, or may look the same though it changes:
/// what was taken up is of no use then.
#[derive(Drop)]
pub(crate) struct Look<'a> {
    rt: &'a HostRuntime,
    taken: Sha256,
    /// What has changed since this second of the system's clock isn't settled.
    settled: i64,
    /// How many files were taken up below the root.
    files: usize,
}

impl<'a> Look<'a> {
    /// Nothing yet, for a run that began at this second of the system's clock.
    pub(crate) fn new(rt: &'a HostRuntime, begun: i64) -> Look<'a> {
        Look {
            rt,
            taken: Sha256::new(),
            settled: begun.saturating_sub(SETTLED_SECONDS),
            files: 0,
        }
    }

    /// Takes up a text, in which no NUL stands.
    pub(crate) fn take_text(&mut self, text: &str) {
        self.taken.update(text.as_bytes());
        self.take_bytes(b"\0");
    }

    /// Takes up a digest.
    pub(crate) fn take_digest(&mut self, digest: &[u8; 32]) {
        self.take_bytes(digest);
    }

    fn take_bytes(&mut self, bytes: &[u8]) {
        self.taken.update(bytes);
    }

    /// Takes up what the system says of a regular file.
    fn take_file(&mut self, found: &Metadata) -> Option<()> {
        if found.mtime() > self.settled || found.ctime() > self.settled {
            return None;
        }
        self.files = self.files.saturating_add(1);
        self.take_bytes(&found.dev().to_be_bytes());
        self.take_bytes(&found.ino().to_be_bytes());
        self.take_bytes(&found.size().to_be_bytes());
        self.take_bytes(&found.mtime().to_be_bytes());
        self.take_bytes(&found.mtime_nsec().to_be_bytes());
        self.take_bytes(&found.ctime().to_be_bytes());
        self.take_bytes(&found.ctime_nsec().to_be_bytes());
        Some(())
    }

    /// Takes up which regular file has this name, how long it is, and its last bytes.
    pub(crate) fn take_end_of(&mut self, name: &str) -> Option<()> {
        let found = fs::metadata(self.rt, name).ok()?;
        if !found.is_file() {
            return None;
        }
        self.take_bytes(&found.dev().to_be_bytes());
        self.take_bytes(&found.ino().to_be_bytes());
        self.take_bytes(&found.size().to_be_bytes());
        let mut file = File::open(self.rt, name).ok()?;
        let start = found.size().saturating_sub(END_BYTES);
        file.seek(SeekFrom::Start(start)).ok()?;
        let mut end = Vec::new(self.rt.alloc());
        file.take(END_BYTES).read_to_end(&mut end).ok()?;
        self.take_bytes(end.as_slice());
        Some(())
    }

    /// Takes up the text of a root's file of patterns, and returns these, with others behind them.
    fn take_patterns(&mut self, root: &str, more: &[&str]) -> Option<Patterns> {
        let text = text_of_patterns(self.rt, root)?;
        self.take_bytes(&text.len().to_be_bytes());
        self.take_bytes(text.as_slice());
        let mut patterns = Patterns::read(self.rt.alloc(), text.as_slice()).ok()?;
        for text in more {
            patterns.push(text).ok()?;
        }
        Some(patterns)
    }

    /// Takes up how a root looks, with all below it that its own patterns and these don't ignore, on its own file system alone where
    /// that is wanted. Where a scan has found files there, just these have to be there.
    pub(crate) fn take_root(
        &mut self,
        root: &str,
        more: &[&str],
        stays: bool,
        listed: Option<&[FoundRow]>,
    ) -> Option<()> {
        let found = fs::metadata(self.rt, root).ok()?;
        self.take_bytes(&found.dev().to_be_bytes());
        self.take_bytes(&found.ino().to_be_bytes());
        let patterns = self.take_patterns(root, more)?;
        self.take_tree(&Tree {
            root,
            patterns: &patterns,
            file_system: if stays { Some(found.dev()) } else { None },
            found: listed,
        })
    }

    fn take_tree(&mut self, tree: &Tree<'_>) -> Option<()> {
        let alloc = self.rt.alloc();
        let mut folders = Vec::new(alloc);
        folders.push(String::new(alloc)).ok()?;
        self.files = 0;
        for _ in 0..MOST_FOLDERS {
            let Some(folder) = folders.pop() else {
                return if tree.has_found_all(self.files) {
                    Some(())
                } else {
                    None
                };
            };
            self.take_folder(tree, folder.as_str(), &mut folders)?;
        }
        None
    }

    /// Takes up what lies in a folder, which has this path below the root, and puts the folders there to those that are to come.
    fn take_folder(
        &mut self,
        tree: &Tree<'_>,
        folder: &str,
        folders: &mut Vec<String>,
    ) -> Option<()> {
        self.take_text(folder);
        let path = format!(in self.rt.alloc(); "{}/{folder}", tree.root).ok()?;
        let listed = fs::read_dir(self.rt, path.as_str()).ok()?;
        self.take_listed(tree, folder, listed, folders)
    }

    fn take_listed(
        &mut self,
        tree: &Tree<'_>,
        folder: &str,
        listed: ReadDir<HostRuntime>,
        folders: &mut Vec<String>,
    ) -> Option<()> {
        for entry in listed {
            match entry {
                Ok(entry) => self.take_entry(tree, folder, &entry, folders)?,
                // A name that isn't UTF-8 is counted, and nothing else.
                Err(error) if error.kind() == ErrorKind::InvalidFilename => self.take_bytes(b"n"),
                Err(_) => return None,
            }
        }
        Some(())
    }

    fn take_entry(
        &mut self,
        tree: &Tree<'_>,
        folder: &str,
        entry: &DirEntry<HostRuntime>,
        folders: &mut Vec<String>,
    ) -> Option<()> {
        let alloc = self.rt.alloc();
        let found = entry.metadata().ok()?;
        let name = entry.file_name();
        let path = match folder {
            "" => String::from_str(alloc, name).ok()?,
            folder => format!(in alloc; "{folder}/{name}").ok()?,
        };
        if tree.patterns.ignores_here(path.as_bytes(), found.is_dir()) {
            return Some(());
        }
        self.take_text(name);
        if found.is_file() {
            if !tree.has_found(path.as_str()) {
                return None;
            }
            self.take_bytes(b"f");
            return self.take_file(&found);
        }
        if found.is_dir() && !tree.is_elsewhere(&found) {
            self.take_bytes(b"d");
            return folders.push(path).ok();
        }
        self.take_bytes(b"o");
        Some(())
    }

    /// The digest of all that was taken up.
    pub(crate) fn end(self) -> [u8; 32] {
        self.taken.finalize()
    }
}
