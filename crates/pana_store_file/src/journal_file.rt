//! Files of journals: found or made, locked, and read from the disk.

use std::fs::{self, File, OpenOptions, TryLockError};
use std::io::{self, Error, ErrorKind};
use std::os::fd::AsRawFd;
use std::os::unix::fs::{MetadataExt, OpenOptionsExt};
use std::path::Path;

/// Why a journal's file isn't opened.
#[derive(Clone, Copy, PartialEq, Eq)]
pub enum FileFault {
    /// It can't be opened to read and write, or be made, or it is no file.
    CannotOpen,
    /// Another process has it open.
    InUse,
    /// Memory ran out.
    OutOfMemory,
}

/// Why a file isn't opened, from what the system reports.
fn fault_of(error: &Error) -> FileFault {
    match error.kind() {
        ErrorKind::OutOfMemory => FileFault::OutOfMemory,
        _ => FileFault::CannotOpen,
    }
}

/// The folder of a file's name.
fn folder_of(name: &str) -> &str {
    match name.rfind('/') {
        Some(0) => "/",
        Some(end) => name.split_at(end).0,
        None => ".",
    }
}

/// Whether the name leads to a regular file. What isn't one isn't even opened: a pipe would wait for its other end.
fn is_regular(rt: &HostRuntime, name: &str) -> io::Result<bool> {
    Ok(fs::metadata(rt, name)?.is_file())
}

fn find_to_read(rt: &HostRuntime, name: &str) -> io::Result<File> {
    if is_regular(rt, name)? {
        File::open(rt, name)
    } else {
        Err(ErrorKind::InvalidInput.into())
    }
}

/// The regular file with this name, to be read.
pub fn open_to_read(rt: &HostRuntime, name: &str) -> Result<File, FileFault> {
    match find_to_read(rt, name) {
        Ok(file) => Ok(file),
        Err(error) => Err(fault_of(&error)),
    }
}

/// The regular file with this name, to be read and written.
fn find(rt: &HostRuntime, name: &str) -> io::Result<File> {
    if is_regular(rt, name)? {
        OpenOptions::new().read(true).write(true).open(rt, name)
    } else {
        Err(ErrorKind::InvalidInput.into())
    }
}

/// Makes a file that only its owner may read and write.
fn make(rt: &HostRuntime, name: &str) -> io::Result<File> {
    OpenOptions::new()
        .read(true)
        .write(true)
        .create_new(true)
        .mode(0o600)
        .open(rt, name)
}

/// The file with this name, which is made where it isn't there.
fn find_or_make(rt: &HostRuntime, name: &str) -> io::Result<File> {
    match find(rt, name) {
        Err(error) if matches!(error.kind(), ErrorKind::NotFound) => {}
        found => return found,
    }
    match make(rt, name) {
        Err(error) if matches!(error.kind(), ErrorKind::AlreadyExists) => find(rt, name),
        made => made,
    }
}

/// Has the file and its name on the disk, and what is read of it come from there: after a sync that failed for an earlier
/// process, memory may hold what the disk has not, and a later sync succeeds.
fn settle(rt: &HostRuntime, name: &str, file: &File) -> io::Result<()> {
    file.sync_all()?;
    let advised = libc::posix_fadvise(file.as_raw_fd(), 0, 0, libc::POSIX_FADV_DONTNEED);
    if advised != 0 {
        return Err(Error::from_raw_os_error(advised));
    }
    let whole = fs::canonicalize(rt, name)?;
    File::open(rt, folder_of(whole.as_str()))?.sync_all()
}

/// Whether the file is a regular one, and the one that has this name now.
fn is_named(rt: &HostRuntime, name: &str, file: &File) -> io::Result<bool> {
    let (found, named) = (file.metadata()?, fs::metadata(rt, name)?);
    Ok(found.is_file() && found.dev() == named.dev() && found.ino() == named.ino())
}

/// The file with this name, which is made where it isn't there, and is none of the standard streams.
fn find_to_lock(rt: &HostRuntime, name: &str) -> io::Result<File> {
    let file = find_or_make(rt, name)?;
    // What is meant for a standard stream that was closed must not land in the journal.
    if file.as_raw_fd() <= 2 {
        let other = file.try_clone();
        drop(file);
        return other;
    }
    Ok(file)
}

/// Has the file on the disk, where it is a regular one and has this name now. Returns whether it is and has.
fn settle_named(rt: &HostRuntime, name: &str, file: &File) -> io::Result<bool> {
    if !is_named(rt, name, file)? {
        return Ok(false);
    }
    settle(rt, name, file)?;
    Ok(true)
}

fn lock(rt: &HostRuntime, name: &str, file: &File) -> Result<(), FileFault> {
    match file.try_lock() {
        Ok(()) => {}
        Err(TryLockError::WouldBlock) => return Err(FileFault::InUse),
        Err(TryLockError::Error(error)) => return Err(fault_of(&error)),
    }
    match settle_named(rt, name, file) {
        Ok(true) => Ok(()),
        Ok(false) => Err(FileFault::CannotOpen),
        Err(error) => Err(fault_of(&error)),
    }
}

/// Opens a journal's file, or makes it, and locks it for this process. It is on the disk then, and so is its name.
pub fn open_locked(rt: &HostRuntime, name: &str) -> Result<File, FileFault> {
    let file = match find_to_lock(rt, name) {
        Ok(file) => file,
        Err(error) => return Err(fault_of(&error)),
    };
    match lock(rt, name, &file) {
        Ok(()) => Ok(file),
        Err(fault) => {
            drop(file);
            Err(fault)
        }
    }
}
