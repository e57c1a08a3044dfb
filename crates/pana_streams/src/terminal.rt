//! The terminal that standard output may be.

use crate::fault::ProgramFault;
use std::env::{self, VarError};
use std::io::IsTerminal;

/// The width of a terminal at most.
const MOST: usize = 10_000;

/// The number of columns that this text says, from 1 on.
fn columns_in(text: &str) -> Option<usize> {
    match text.parse::<usize>() {
        Ok(0) | Err(_) => None,
        Ok(columns) => Some(MOST.min(columns)),
    }
}

/// How many columns the terminal has, where standard output is one and the environment variable `COLUMNS` says so.
///
/// # Errors
///
/// `OutOfMemory` where an allocation failed.
pub fn terminal_width(rt: &HostRuntime) -> Result<Option<usize>, ProgramFault> {
    if !rt.stdout().is_terminal() {
        return Ok(None);
    }
    match env::var(rt, "COLUMNS") {
        Ok(text) => Ok(columns_in(text.as_str())),
        Err(VarError::OutOfMemory) => Err(ProgramFault::OutOfMemory),
        Err(_) => Ok(None),
    }
}
