//! A disk on which what a scan passes over is named.
ghost use Rattle.std.specs.Prelude.{◌≡◌};

use crate::folder_watch::FolderWatch;
use pana_scan::{Disk, DiskFault, Entry};
use std::alloc::{AllocError, Global};

/// A disk that is, to a scan and to contracts, the one below it. Its watch learns what is met in folders, and which files can't be
/// read.
#[derive(Drop)]
pub struct NamingDisk<'a, 'b, D> {
    alloc: Global,
    disk: D,
    /// Who names what is passed over, where anyone does.
    watch: Option<&'a FolderWatch<'b>>,
    /// The folder that is listed, and the file that is open, where anyone names them.
    folder: String,
    file: String,
}

impl<'a, 'b, D> NamingDisk<'a, 'b, D> {
    /// The disk on which the watch names what is passed over, where there is one. Takes no memory.
    pub fn new(alloc: Global, disk: D, watch: Option<&'a FolderWatch<'b>>) -> NamingDisk<'a, 'b, D>
        ensures { result.disk ≡ disk }
    {
        NamingDisk {
            alloc,
            disk,
            watch,
            folder: String::new(alloc),
            file: String::new(alloc),
        }
    }

    /// The disk below.
    pub fn into_disk(self) -> D
        ensures { result ≡ self.entry.disk }
    {
        let NamingDisk { disk, .. } = self;
        disk
    }

    /// Another folder is listed.
    fn begin_folder(&mut self, folder: &str) -> Result<(), AllocError>
        ensures { self.new.disk ≡ self.old.disk }
    {
        if let Some(watch) = self.watch {
            self.folder = String::from_str(self.alloc, folder)?;
            watch.begin_folder();
        }
        Ok(())
    }

    /// Another file is opened.
    fn begin_file(&mut self, file: &str) -> Result<(), AllocError>
        ensures { self.new.disk ≡ self.old.disk }
    {
        if self.watch.is_some() {
            self.file = String::from_str(self.alloc, file)?;
        }
        Ok(())
    }

    /// What a call has given is met.
    fn meet(&self, given: &Result<Option<Entry>, DiskFault>) {
        if let (Some(watch), Ok(Some(entry))) = (self.watch, given) {
            watch.meet(self.folder.as_str(), entry);
        }
    }

    /// The file that is open is one that can't be read, where it isn't well.
    fn end_file(&self, is_well: bool) {
        if let Some(watch) = self.watch {
            if !is_well {
                watch.fail(self.file.as_str());
            }
        }
    }
}

impl<'a, 'b, D: Disk> Disk for NamingDisk<'a, 'b, D> {
    ghost is_known = { D.is_known };

    ghost tree = { λ naming. D.tree naming.disk };

    ghost names = { λ naming. D.names naming.disk };

    ghost content = { λ naming. D.content naming.disk };

    ghost has_failed = { λ naming. D.has_failed naming.disk };

    ghost entries = { λ naming. D.entries naming.disk };

    ghost faults = { λ naming. D.faults naming.disk };

    fn met(&self) -> u64 {
        self.disk.met()
    }

    fn list(&mut self, folder: &str) -> Result<(), DiskFault> {
        self.begin_folder(folder)?;
        self.disk.list(folder)
    }

    fn next(&mut self, alloc: Global) -> Result<Option<Entry>, DiskFault> {
        let given = self.disk.next(alloc);
        self.meet(&given);
        given
    }

    fn open(&mut self, file: &str) -> Result<(), DiskFault> {
        self.begin_file(file)?;
        let opened = self.disk.open(file);
        self.end_file(opened != Err(DiskFault::Failed));
        opened
    }

    fn read(&mut self, piece: &mut [u8]) -> Result<usize, DiskFault> {
        let read = self.disk.read(piece);
        self.end_file(read.is_ok());
        read
    }

    fn recall(&mut self, file: &str) -> Option<[u8; 32]> {
        self.disk.recall(file)
    }

    fn settle(&mut self, file: &str, digest: &[u8; 32]) -> bool {
        let is_same = self.disk.settle(file, digest);
        self.end_file(is_same);
        is_same
    }
}
