//! Why something wasn't reported, printed in one line.

use pana_store_file::NoStore;
use pana_streams::{ProgramFault, complain};
use std::process::ExitCode;

/// The status where something wasn't reported.
pub const FAULT: u8 = 3;

/// Prints one line on standard error, and returns the status of a fault.
pub fn report(rt: &HostRuntime, text: &str) -> Result<ExitCode, ProgramFault> {
    let line = format!(in rt.alloc(); "panad: {text}\n")?;
    let _ = complain(rt, &line);
    Ok(ExitCode::from(FAULT))
}

/// Prints why there is no store, and returns the status.
pub fn report_refusal(rt: &HostRuntime, refusal: NoStore) -> Result<ExitCode, ProgramFault> {
    match refusal {
        NoStore::Because(text) | NoStore::NoAnswer(text) => report(rt, text.as_str()),
        NoStore::Fault(fault) => Err(fault),
    }
}

/// Prints that nothing listens on the port, and returns the status.
pub fn report_no_daemon(rt: &HostRuntime, port: u16) -> Result<ExitCode, ProgramFault> {
    let text = format!(in rt.alloc(); "cannot connect to port {port}")?;
    report(rt, text.as_str())
}
