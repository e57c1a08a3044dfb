//! The stores and halls of journals' files.

use crate::journal_file::{FileFault, open_locked, open_to_read};
use pana_hall::Hall;
use pana_log::{FileDevice, Log};
use pana_store::{OpenFault, Opened, Store};
use pana_streams::{ProgramFault, complain};
use std::alloc::AllocError;
use std::fmt;
use std::fs::File;

/// Why a journal can't be used.
#[derive(Drop)]
pub enum NoStore {
    /// For this reason, as a text.
    Because(String),
    /// What keeps it gives no answer, as this text says.
    NoAnswer(String),
    /// The program can't go on.
    Fault(ProgramFault),
}

impl From<ProgramFault> for NoStore {
    fn from(fault: ProgramFault) -> NoStore {
        NoStore::Fault(fault)
    }
}

impl From<AllocError> for NoStore {
    fn from(_error: AllocError) -> NoStore {
        NoStore::Fault(ProgramFault::OutOfMemory)
    }
}

impl fmt::Display for NoStore {
    fn fmt<W: fmt::Write>(&self, f: &mut fmt::Formatter<W>) -> fmt::Result {
        match self {
            NoStore::Because(text) | NoStore::NoAnswer(text) => f.write_str(text.as_str()),
            NoStore::Fault(fault) => write!(f, "{fault}"),
        }
    }
}

/// For a reason as a text, if there is memory for it.
fn because(text: Result<String, AllocError>) -> NoStore {
    match text {
        Ok(text) => NoStore::Because(text),
        Err(_) => NoStore::Fault(ProgramFault::OutOfMemory),
    }
}

/// Why there is no store, where the file can't be had.
fn no_file(rt: &HostRuntime, name: &str, fault: FileFault) -> NoStore {
    match fault {
        FileFault::CannotOpen => because(format!(in rt.alloc(); "cannot open journal {name}")),
        FileFault::InUse => because(format!(in rt.alloc(); "journal {name} is in use")),
        FileFault::OutOfMemory => NoStore::Fault(ProgramFault::OutOfMemory),
    }
}

/// Why there is no store, where the file is none of a journal that can be used.
fn no_journal(rt: &HostRuntime, name: &str, fault: OpenFault) -> NoStore {
    because(format!(in rt.alloc(); "journal {name}: {fault}"))
}

/// Says how many bytes a crash has left behind the last entry. That standard error can't be written is no fault.
fn report_torn(rt: &HostRuntime, name: &str, torn: usize) -> Result<(), ProgramFault> {
    if torn > 0 {
        let text = format!(in rt.alloc();
            "panad: journal {name}: {torn} bytes behind the last entry were cut off\n"
        )?;
        let _ = complain(rt, &text);
    }
    Ok(())
}

/// The log in a file of this name.
fn log_of(rt: &HostRuntime, name: &str, file: File) -> Result<Log<FileDevice>, AllocError> {
    let name = String::from_str(rt.alloc(), name)?;
    Ok(Log::new(FileDevice::new(rt.clone()?, name, file)))
}

/// The log in a file of this name; or why there is none.
fn log_in(
    rt: &HostRuntime,
    name: &str,
    file: Result<File, FileFault>,
) -> Result<Log<FileDevice>, NoStore> {
    match file {
        Ok(file) => Ok(log_of(rt, name, file)?),
        Err(fault) => Err(no_file(rt, name, fault)),
    }
}

/// What a log has, which is made ready for new lines; or why there is no store. What a crash has left in it is reported.
fn open_log(rt: &HostRuntime, name: &str, log: &mut Log<FileDevice>) -> Result<Opened, NoStore> {
    let opened = match pana_store::open(rt.alloc(), log) {
        Ok(opened) => opened,
        Err(fault) => return Err(no_journal(rt, name, fault)),
    };
    match report_torn(rt, name, opened.torn) {
        Ok(()) => Ok(opened),
        Err(fault) => {
            drop(opened);
            Err(NoStore::Fault(fault))
        }
    }
}

/// The store of a journal's file; or why there is none.
pub fn open_store(rt: &HostRuntime, name: &str) -> Result<Store<FileDevice>, NoStore> {
    let mut log = log_in(rt, name, open_locked(rt, name))?;
    match open_log(rt, name, &mut log) {
        Ok(Opened { hall, sealer, .. }) => Ok(Store::new(rt.alloc(), hall, log, sealer)?),
        Err(why) => {
            drop(log);
            Err(why)
        }
    }
}

/// The hall of a journal's file, which isn't changed; or why there is none.
pub fn open_hall(rt: &HostRuntime, name: &str) -> Result<Hall, NoStore> {
    let mut log = log_in(rt, name, open_to_read(rt, name))?;
    let opened = pana_store::read(rt.alloc(), &mut log);
    drop(log);
    match opened {
        Ok(Opened { hall, .. }) => Ok(hall),
        Err(fault) => Err(no_journal(rt, name, fault)),
    }
}
