//! What commands read: files, and standard input.

use pana_keeper::print_reported;
use pana_streams::ProgramFault;
use std::io::Read;
use std::process::ExitCode;
use std::{fs, io};

/// The bytes of a file, or `None` where it can't be read.
pub fn bytes_of(rt: &HostRuntime, name: &str) -> Result<Option<Vec<u8>>, ProgramFault> {
    match fs::read(rt, name) {
        Ok(bytes) => Ok(Some(bytes)),
        Err(error) if matches!(error.kind(), io::ErrorKind::OutOfMemory) => {
            Err(ProgramFault::OutOfMemory)
        }
        Err(_) => Ok(None),
    }
}

/// The bytes of standard input.
pub fn bytes_of_input(rt: &HostRuntime) -> Result<Vec<u8>, ProgramFault> {
    let mut bytes = Vec::new(rt.alloc());
    match rt.reader().read_to_end(&mut bytes) {
        Ok(_) => Ok(bytes),
        Err(error) if matches!(error.kind(), io::ErrorKind::OutOfMemory) => {
            Err(ProgramFault::OutOfMemory)
        }
        Err(_) => Err(ProgramFault::Read),
    }
}

pub fn cannot_read(rt: &HostRuntime, name: &str) -> Result<ExitCode, ProgramFault> {
    let text = format!(in rt.alloc(); "cannot read {name}")?;
    print_reported(rt, text.as_str())
}
