//! The system's files as a disk.
ghost use Rattle.std.specs.Prelude.{◌≡◌, ◌≢◌, ◌||◌, ◌==◌, not, false, true, option_map, unwrap_or, IsOk, IsErr, IsSome, IfOk, IfErr, IfSome, IfNone, OnOk, OnErr, is_err};
ghost use Rattle.std.specs.Bool.{OnFalse, OnTrue};
ghost use Rattle.std.specs.Fs.{IsDir, IsFile};
ghost use Rattle.std.specs.IoError.{error_kind};
ghost use Rattle.pana_scan.specs.Disk.{entries_after, faults_after, is_failure};
ghost use Rattle.pana_scan.specs.Scan.{IsFresh};

use crate::disk::Disk;
use crate::disk_fault::DiskFault;
use crate::entry::{Entry, EntryName, Kind};
use std::alloc::Global;
use std::fs::{DirEntry, File, FileType, Files, Metadata, OpenFile, ReadDir};
use std::io::{Error, ErrorKind, Read};
use std::os::unix::fs::MetadataExt;
use std::{fs, io};

/// The files of the system. Nothing is known of what they hold, so nothing is proved of what its calls give.
pub struct SystemDisk<'a, R: Files + AllocGlobal + Clone + Drop> {
    files: &'a R,
    /// Whether folders of other file systems than the first folder's are passed over.
    stays: bool,
    /// The first folder's file system, where it stays there.
    file_system: Option<u64>,
    names: Option<ReadDir<R>>,
    file: Option<R::File>,
    has_failed: bool,
    entries: u64,
    faults: u64,
}

impl<'a, R: Files + AllocGlobal + Clone + Drop> Drop for SystemDisk<'a, R> {
    fn drop(self) {
        let SystemDisk {
            files: _,
            stays: _,
            file_system: _,
            names: _,
            file: _,
            has_failed: _,
            entries: _,
            faults: _,
        } = self;
    }
}

impl<'a, R: Files + AllocGlobal + Clone + Drop> SystemDisk<'a, R> {
    /// The files of the system, before a scan. Takes no memory.
    pub fn new(files: &'a R) -> SystemDisk<'a, R>
        ensures { IsFresh result.has_failed result.entries result.faults }
    {
        SystemDisk::staying(files, false)
    }

    /// The files of the system, before a scan that stays on the file system of the folder that is listed first, or enters
    /// all. Takes no memory.
    pub fn staying(files: &'a R, stays: bool) -> SystemDisk<'a, R>
        ensures { IsFresh result.has_failed result.entries result.faults }
    {
        SystemDisk {
            files,
            stays,
            file_system: None,
            names: None,
            file: None,
            has_failed: false,
            entries: 0,
            faults: 0,
        }
    }
}

/// Why a call fails, by the system's error.
fn fault_of(error: &Error) -> DiskFault
    ensures memory { error_kind error.now ≡ ErrorKind.OutOfMemory → result ≡ DiskFault.OutOfMemory }
    ensures failed { error_kind error.now ≢ ErrorKind.OutOfMemory → result ≡ DiskFault.Failed }
{
    if error.kind() == ErrorKind::OutOfMemory {
        DiskFault::OutOfMemory
    } else {
        DiskFault::Failed
    }
}

/// What an entry of this type is.
fn kind_of(of: FileType) -> Kind
    ensures file { IsFile of → result ≡ Kind.File }
    ensures folder { IsDir of → result ≡ Kind.Folder }
    ensures other { ¬ IsFile of → ¬ IsDir of → result ≡ Kind.Other }
{
    if of.is_file() {
        Kind::File
    } else if of.is_dir() {
        Kind::Folder
    } else {
        Kind::Other
    }
}

/// What an entry is of which the system gives this error.
fn kind_by_error(error: &Error) -> Result<Kind, DiskFault>
    ensures gone { error_kind error.now ≡ ErrorKind.NotFound → result ≡ Ok Kind.Gone }
    ensures err { error_kind error.now ≢ ErrorKind.NotFound → IsErr result }
{
    if error.kind() == ErrorKind::NotFound {
        Ok(Kind::Gone)
    } else {
        Err(fault_of(error))
    }
}

/// Whether what is on this file system is passed over, where the scan stays on one.
fn is_elsewhere(stays_on: Option<u64>, file_system: u64) -> bool
    ensures { result ≡ unwrap_or (option_map (λ own. not (own == file_system)) stays_on) false }
{
    match stays_on {
        Some(own) => own != file_system,
        None => false,
    }
}

/// What an entry is to a scan: a folder elsewhere isn't entered.
fn kind_within(kind: Kind, is_elsewhere: bool) -> Kind
    ensures elsewhere { OnTrue is_elsewhere (kind ≡ Kind.Folder → result ≡ Kind.Other) }
    ensures other { OnTrue is_elsewhere (kind ≢ Kind.Folder → result ≡ kind) }
    ensures here { OnFalse is_elsewhere (result ≡ kind) }
{
    match kind {
        Kind::Folder if is_elsewhere => Kind::Other,
        kind => kind,
    }
}

/// What a name stands for, by the system's answer, where the scan stays on a file system.
fn kind_found(stays_on: Option<u64>, answer: io::Result<Metadata>) -> Result<Kind, DiskFault>
    ensures err { IfErr answer (λ error. error_kind error ≢ ErrorKind.NotFound → IsErr result) }
{
    match answer {
        Ok(found) => {
            let is_elsewhere = is_elsewhere(stays_on, found.dev());
            Ok(kind_within(kind_of(found.file_type()), is_elsewhere))
        }
        Err(error) => kind_by_error(&error),
    }
}

/// What the system's entry is.
fn entry_at<R: Files + Drop>(
    alloc: Global,
    stays_on: Option<u64>,
    entry: &DirEntry<R>,
) -> Result<Entry, DiskFault> {
    let name = EntryName::new(alloc, entry.file_name())?;
    match kind_found(stays_on, entry.metadata()) {
        Ok(kind) => Ok(Entry::Named { name, kind }),
        Err(fault) => {
            drop(name);
            Err(fault)
        }
    }
}

/// What is met where the system gives this error: one stands for a name that isn't UTF-8.
fn entry_by_error(error: &Error) -> Result<Entry, DiskFault>
    ensures no_text { error_kind error.now ≡ ErrorKind.InvalidFilename → result ≡ Ok Entry.NotText }
    ensures err { error_kind error.now ≢ ErrorKind.InvalidFilename → IsErr result }
{
    if error.kind() == ErrorKind::InvalidFilename {
        Ok(Entry::NotText)
    } else {
        Err(fault_of(error))
    }
}

/// What is met, by the system's answer.
fn entry_of<R: Files + Drop>(
    alloc: Global,
    stays_on: Option<u64>,
    answer: io::Result<DirEntry<R>>,
) -> Result<Entry, DiskFault>
    ensures no_text { IfErr answer (λ error. error_kind error ≡ ErrorKind.InvalidFilename → result ≡ Ok Entry.NotText) }
    ensures err { IfErr answer (λ error. error_kind error ≢ ErrorKind.InvalidFilename → IsErr result) }
{
    match answer {
        Ok(entry) => {
            let met = entry_at(alloc, stays_on, &entry);
            drop(entry);
            met
        }
        Err(error) => entry_by_error(&error),
    }
}

/// What takes the system's answers: a call that has failed is returned as failed, and counted.
impl<'a, R: Files + AllocGlobal + Clone + Drop> SystemDisk<'a, R> {
    /// The file system of a folder.
    fn file_system_of(&self, folder: &str) -> Option<u64> {
        Some(fs::metadata(self.files, folder).ok()?.dev())
    }

    /// Counts a file that has failed.
    pub(crate) fn file_failed(&mut self) -> DiskFault
        ensures fault { result ≡ DiskFault.Failed }
        ensures failed { self.new.has_failed ≡ self.old.has_failed }
        ensures entries { self.new.entries ≡ self.old.entries }
        ensures faults { self.new.faults ≡ faults_after self.old.faults true }
    {
        self.faults = self.faults.saturating_add(1);
        DiskFault::Failed
    }

    /// What the system says of the file that is open.
    pub(crate) fn metadata(&self) -> Option<Metadata> {
        self.file.as_ref()?.metadata().ok()
    }

    fn list_failed<T: Drop>(&mut self, fault: DiskFault) -> Result<T, DiskFault>
        ensures result { result ≡ Err fault }
        ensures failed { self.new.has_failed ≡ (self.old.has_failed || is_failure result) }
        ensures entries { self.new.entries ≡ self.old.entries }
        ensures faults { self.new.faults ≡ self.old.faults }
    {
        self.has_failed = self.has_failed || fault == DiskFault::Failed;
        Err(fault)
    }

    fn begin(&mut self, answer: io::Result<ReadDir<R>>) -> Result<(), DiskFault>
        ensures ok { OnOk answer (IsOk result) }
        ensures err { OnErr answer (IsErr result) }
        ensures failed { self.new.has_failed ≡ (self.old.has_failed || is_failure result) }
        ensures entries { self.new.entries ≡ self.old.entries }
        ensures faults { self.new.faults ≡ self.old.faults }
    {
        match answer {
            Ok(names) => {
                self.names = Some(names);
                Ok(())
            }
            Err(error) => self.list_failed(fault_of(&error)),
        }
    }

    fn give(
        &mut self,
        alloc: Global,
        answer: Option<io::Result<DirEntry<R>>>,
    ) -> Result<Option<Entry>, DiskFault>
        ensures end { IfNone answer (result ≡ Ok None) }
        ensures more { IsSome answer → IfOk result IsSome }
        ensures err { IfSome answer (λ read. IfErr read (λ error. error_kind error ≢ ErrorKind.InvalidFilename → IsErr result)) }
        ensures failed { self.new.has_failed ≡ (self.old.has_failed || is_failure result) }
        ensures entries { self.new.entries ≡ entries_after self.old.entries result }
        ensures faults { self.new.faults ≡ self.old.faults }
    {
        let Some(read) = answer else {
            return Ok(None);
        };
        match entry_of(alloc, self.file_system, read) {
            Ok(entry) => {
                self.entries = self.entries.saturating_add(1);
                Ok(Some(entry))
            }
            Err(fault) => self.list_failed(fault),
        }
    }

    fn begin_file(&mut self, answer: io::Result<R::File>) -> Result<(), DiskFault>
        ensures ok { OnOk answer (IsOk result) }
        ensures err { OnErr answer (IsErr result) }
        ensures failed { self.new.has_failed ≡ self.old.has_failed }
        ensures entries { self.new.entries ≡ self.old.entries }
        ensures faults { self.new.faults ≡ faults_after self.old.faults (is_failure result) }
    {
        match answer {
            Ok(file) => {
                self.file = Some(file);
                Ok(())
            }
            Err(error) => {
                let fault = fault_of(&error);
                if fault == DiskFault::Failed {
                    self.faults = self.faults.saturating_add(1);
                }
                Err(fault)
            }
        }
    }

    fn take(&mut self, answer: io::Result<usize>) -> Result<usize, DiskFault>
        ensures ok { IfOk answer (λ count. result ≡ Ok count) }
        ensures err { OnErr answer (IsErr result) }
        ensures failed { self.new.has_failed ≡ self.old.has_failed }
        ensures entries { self.new.entries ≡ self.old.entries }
        ensures faults { self.new.faults ≡ faults_after self.old.faults (is_err result) }
    {
        match answer {
            Ok(count) => Ok(count),
            Err(error) => {
                self.faults = self.faults.saturating_add(1);
                Err(fault_of(&error))
            }
        }
    }
}

impl<'a, R: Files + AllocGlobal + Clone + Drop> Disk for SystemDisk<'a, R> {
    ghost use Rattle.std.specs.Prelude.{false, None, [], true};

    ghost is_known = { false };

    ghost tree = { λ _. record { names = λ _. record { entries = []; fails = true }; content = λ _. None } };

    ghost names = { λ _. record { entries = []; fails = true } };

    ghost content = { λ _. record { bytes = []; reads = 0; fails = true } };

    ghost has_failed = { λ disk. disk.has_failed };

    ghost entries = { λ disk. disk.entries };

    ghost faults = { λ disk. disk.faults };

    fn met(&self) -> u64 {
        self.entries
    }

    fn list(&mut self, folder: &str) -> Result<(), DiskFault> {
        if self.stays && self.file_system.is_none() {
            self.file_system = self.file_system_of(folder);
        }
        let answer = fs::read_dir(self.files, folder);
        self.begin(answer)
    }

    fn next(&mut self, alloc: Global) -> Result<Option<Entry>, DiskFault> {
        let answer = match &mut self.names {
            Some(names) => names.next(),
            None => Some(Err(Error::from(ErrorKind::Other))),
        };
        self.give(alloc, answer)
    }

    fn open(&mut self, file: &str) -> Result<(), DiskFault> {
        let answer = File::open(self.files, file);
        self.begin_file(answer)
    }

    fn read(&mut self, piece: &mut [u8]) -> Result<usize, DiskFault> {
        let answer = match &mut self.file {
            Some(file) => file.read(piece),
            None => Err(Error::from(ErrorKind::Other)),
        };
        self.take(answer)
    }
}
