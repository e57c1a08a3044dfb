//! Standard output and standard error. A terminal gets each text as `pana_terminal` shows it.

use crate::colour::{Tables, coloured, is_wanted};
use crate::fault::ProgramFault;
use pana_terminal::{Screen, shown};
use std::io::{self, BufWriter, IsTerminal, Printer};

/// Standard output, for a session to write to.
pub type Output<'a> = Screen<BufWriter<Printer<'a, HostRuntime>>>;

/// Standard output behind a buffer.
pub fn output(rt: &HostRuntime) -> Result<Output<'_>, ProgramFault> {
    let alloc = rt.alloc();
    let buffered = BufWriter::new(alloc, io::writer(rt)).map_err(|_| ProgramFault::OutOfMemory)?;
    Ok(Screen::new(alloc, buffered, rt.stdout().is_terminal()))
}

/// Prints a text on standard output.
pub fn print_text(rt: &HostRuntime, text: &str) -> Result<(), ProgramFault> {
    let printed = if rt.stdout().is_terminal() {
        print!(rt; "{}", shown(rt.alloc(), text)?)
    } else {
        print!(rt; "{text}")
    };
    printed.map_err(|_| ProgramFault::Write)
}

/// Prints a text on standard error.
pub fn complain(rt: &HostRuntime, text: &str) -> Result<(), ProgramFault> {
    let printed = if rt.stderr().is_terminal() {
        eprint!(rt; "{}", shown(rt.alloc(), text)?)
    } else {
        eprint!(rt; "{text}")
    };
    printed.map_err(|_| ProgramFault::Write)
}

/// Prints such tables on standard output, on a terminal in colour.
pub fn print_tables(rt: &HostRuntime, tables: Tables, text: &str) -> Result<(), ProgramFault> {
    if text.is_empty() || !rt.stdout().is_terminal() || !is_wanted(rt) {
        return print_text(rt, text);
    }
    let safe = shown(rt.alloc(), text)?;
    let lines = coloured(rt.alloc(), tables, &safe)?;
    match print!(rt; "{lines}") {
        Ok(()) => Ok(()),
        Err(_) => Err(ProgramFault::Write),
    }
}
