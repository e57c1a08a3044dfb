//! A disk without what patterns ignore.
ghost use Rattle.std.specs.Prelude.{◌≡◌, ◌∷◌, ◌++◌, IfOk, string_bytes};
ghost use Rattle.pana_ignore.specs.Pattern.{ignores_here};
ghost use Rattle.pana_scan.specs.Scan.{IsFresh};
ghost use Rattle.pana_track.specs.Ignored.{hidden, path_below};

use pana_ignore::Patterns;
use pana_scan::{Disk, DiskFault, Entry, Kind};
use std::alloc::{AllocError, Global};

/// A disk for the scan of one root, on which what the root's patterns ignore is neither a file nor a folder: so the scan
/// passes it over, and enters no folder that is ignored.
#[derive(Drop)]
pub(crate) struct IgnoringDisk<'a, D> {
    alloc: Global,
    disk: &'a mut D,
    patterns: &'a Patterns,
    root: &'a str,
    /// The folder that is listed.
    folder: String,
    entries: u64,
}

/// What stands behind the root and a slash of a path below it.
fn path_below<'a>(root: &str, path: &'a [u8]) -> &'a [u8]
    ensures { result.now ≡ path_below root.now path.now }
{
    let start = root.len() + 1;
    if start < path.len() {
        &path[start..]
    } else {
        &[]
    }
}

impl<'a, D: Disk> IgnoringDisk<'a, D> {
    /// The disk before a scan of this root, without what these patterns ignore. Takes no memory.
    pub(crate) fn new(
        alloc: Global,
        disk: &'a mut D,
        patterns: &'a Patterns,
        root: &'a str,
    ) -> IgnoringDisk<'a, D>
        ensures disk { result.disk.now ≡ disk.old }
        ensures patterns { result.patterns.now ≡ patterns.now }
        ensures root { result.root.now ≡ root.now }
        ensures entries { result.entries ≡ 0 }
    {
        IgnoringDisk {
            alloc,
            disk,
            patterns,
            root,
            folder: String::new(alloc),
            entries: 0,
        }
    }

    /// Whether the patterns ignore what has this name in the folder that is listed.
    fn is_ignored(&self, name: &str, is_folder: bool) -> Result<bool, AllocError>
        ensures { IfOk result (λ is. is ≡ ignores_here self.now.patterns.now (path_below self.now.root.now (string_bytes self.now.folder ++ 47 ∷ name.now)) is_folder) }
    {
        let whole = format!(in self.alloc; "{}/{name}", self.folder)?;
        let path = path_below(self.root, whole.as_bytes());
        Ok(self.patterns.ignores_here(path, is_folder))
    }

    /// The entry as a scan is to see it.
    fn hidden(&self, entry: Entry) -> Result<Entry, AllocError>
        ensures { IfOk result (λ seen. seen ≡ hidden self.now.patterns.now self.now.root.now (string_bytes self.now.folder) entry) }
    {
        let Entry::Named { name, kind } = entry else {
            return Ok(Entry::NotText);
        };
        let kind = match self.is_ignored(name.as_str(), kind == Kind::Folder)? {
            true => Kind::Other,
            false => kind,
        };
        Ok(Entry::Named { name, kind })
    }
}

impl<'a, D: Disk> Disk for IgnoringDisk<'a, D> {
    ghost use Rattle.std.specs.Prelude.{string_bytes};
    ghost use Rattle.pana_track.specs.Ignored.{hidden_names, without_ignored};

    ghost is_known = { D.is_known };

    ghost tree = { λ seen. without_ignored seen.patterns.now seen.root.now (D.tree seen.disk.now) };

    ghost names = { λ seen. hidden_names seen.patterns.now seen.root.now (string_bytes seen.folder) (D.names seen.disk.now) };

    ghost content = { λ seen. D.content seen.disk.now };

    ghost has_failed = { λ seen. D.has_failed seen.disk.now };

    ghost entries = { λ seen. seen.entries };

    ghost faults = { λ seen. D.faults seen.disk.now };

    fn met(&self) -> u64 {
        self.entries
    }

    fn list(&mut self, folder: &str) -> Result<(), DiskFault> {
        self.folder = String::from_str(self.alloc, folder)?;
        self.disk.list(folder)
    }

    fn next(&mut self, alloc: Global) -> Result<Option<Entry>, DiskFault> {
        let Some(entry) = self.disk.next(alloc)? else {
            return Ok(None);
        };
        let entry = self.hidden(entry)?;
        self.entries = self.entries.saturating_add(1);
        Ok(Some(entry))
    }

    fn open(&mut self, file: &str) -> Result<(), DiskFault> {
        self.disk.open(file)
    }

    fn read(&mut self, piece: &mut [u8]) -> Result<usize, DiskFault> {
        self.disk.read(piece)
    }

    fn recall(&mut self, file: &str) -> Option<[u8; 32]> {
        self.disk.recall(file)
    }

    fn settle(&mut self, file: &str, digest: &[u8; 32]) -> bool {
        self.disk.settle(file, digest)
    }
}
