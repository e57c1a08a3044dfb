//! The commands that print the tables of a journal: `show` and `load`; and `compare`.

use crate::input::{bytes_of, bytes_of_input, cannot_read};
use crate::show_command::show_tables;
use pana_arguments::{CompareArguments, LoadArguments, ShowArguments};
use pana_commands::{compare_on, load_on, show_on};
use pana_keeper::{Sessions, keeper_of, print_out, print_out_tables, print_reported};
use pana_log::ends_journal;
use pana_store::before_end;
use pana_streams::{ProgramFault, Tables, terminal_width};
use std::process::ExitCode;

/// Prints the tables of the journal that lines leave, of a file or of standard input.
fn show_lines(rt: &HostRuntime, file: Option<&str>) -> Result<ExitCode, ProgramFault> {
    let bytes = match file {
        Some(name) => match bytes_of(rt, name)? {
            Some(bytes) => bytes,
            None => return cannot_read(rt, name),
        },
        None => bytes_of_input(rt)?,
    };
    let shown = show_on(rt.alloc(), terminal_width(rt)?, bytes.as_slice())?;
    print_out_tables(rt, Tables::Boards, &shown)
}

/// Prints tables.
pub fn show<K: Sessions>(
    rt: &HostRuntime,
    sessions: &K,
    arguments: ShowArguments<'_>,
) -> Result<ExitCode, ProgramFault> {
    match arguments {
        ShowArguments::OfLines(file) => show_lines(rt, file),
        ShowArguments::Kept(kept_by, wanted) => show_tables(
            rt,
            sessions,
            keeper_of(kept_by),
            wanted,
        ),
    }
}

/// The lines of a journal, which its end may stand behind, or `None` where something else does.
fn lines_of(bytes: &[u8]) -> Option<&[u8]> {
    let lines = before_end(bytes);
    match bytes.get(lines.len()..) {
        Some(behind) if ends_journal(behind) => Some(lines),
        _ => None,
    }
}

/// Prints the tables of the journal in a file with this name.
fn load_bytes(rt: &HostRuntime, name: &str, bytes: &[u8]) -> Result<ExitCode, ProgramFault> {
    let Some(lines) = lines_of(bytes) else {
        let text = format!(in rt.alloc(); "journal {name}: not a journal")?;
        return print_reported(rt, text.as_str());
    };
    let shown = load_on(rt.alloc(), terminal_width(rt)?, lines)?;
    print_out_tables(rt, Tables::Boards, &shown)
}

/// Loads a dump, and prints its tables.
pub fn load(rt: &HostRuntime, arguments: LoadArguments<'_>) -> Result<ExitCode, ProgramFault> {
    match bytes_of(rt, arguments.file)? {
        Some(bytes) => load_bytes(rt, arguments.file, bytes.as_slice()),
        None => cannot_read(rt, arguments.file),
    }
}

/// Compares two stamps.
pub fn compare(
    rt: &HostRuntime,
    arguments: CompareArguments<'_>,
) -> Result<ExitCode, ProgramFault> {
    print_out(
        rt,
        &compare_on(rt.alloc(), arguments.first, arguments.second)?,
    )
}
