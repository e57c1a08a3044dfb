//! What commands answer, printed.

use pana_commands::Printout;
use pana_streams::{ProgramFault, Tables, complain, print_tables, print_text};
use std::process::ExitCode;

/// Prints a text on standard error, and returns the status. That it can't be written is no fault.
fn complain_out(rt: &HostRuntime, text: &str, status: u8) -> Result<ExitCode, ProgramFault> {
    match complain(rt, text) {
        Ok(()) | Err(ProgramFault::Write) => Ok(ExitCode::from(status)),
        Err(fault) => Err(fault),
    }
}

/// Prints both texts, and returns the status.
pub fn print_out(rt: &HostRuntime, printout: &Printout) -> Result<ExitCode, ProgramFault> {
    print_text(rt, &printout.out)?;
    complain_out(rt, &printout.err, printout.status)
}

/// Prints one line, and returns this status.
pub fn print_line(rt: &HostRuntime, line: String, status: u8) -> Result<ExitCode, ProgramFault> {
    let printout = Printout {
        out: line,
        err: String::new(rt.alloc()),
        status,
    };
    print_out(rt, &printout)
}

/// Prints a line about this text on standard error, and returns its status.
pub fn print_reported(rt: &HostRuntime, text: &str) -> Result<ExitCode, ProgramFault> {
    print_out(rt, &Printout::reported(rt.alloc(), &text)?)
}

/// Prints both texts, the first of such tables, on a terminal in colour, and returns the status.
pub fn print_out_tables(
    rt: &HostRuntime,
    tables: Tables,
    printout: &Printout,
) -> Result<ExitCode, ProgramFault> {
    print_tables(rt, tables, &printout.out)?;
    complain_out(rt, &printout.err, printout.status)
}
