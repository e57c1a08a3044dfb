//! What commands that ask or report by place have in common.

use pana_ask::{AskFault, read_place, unknown_line};
use pana_copies::{NameFault, Place};
use pana_history::Unexplained;
use pana_keeper::{Keeper, print_line, refuse, report};
use pana_streams::ProgramFault;
use std::process::ExitCode;

/// Prints why nothing comes of what was asked or reported, and returns the status: 1 where no copy is at a place, and 3 where
/// there is no answer.
pub fn print_fault(
    rt: &HostRuntime,
    keeper: Keeper<'_>,
    fault: AskFault,
) -> Result<ExitCode, ProgramFault> {
    match fault {
        AskFault::NoCopy(place) => print_line(rt, unknown_line(rt.alloc(), &place)?, 1),
        AskFault::NoAnswer => report(rt, keeper.no_answer()),
        AskFault::OutOfMemory => Err(ProgramFault::OutOfMemory),
    }
}

/// Prints why nothing is said of copies, and returns the status.
pub fn print_unexplained(
    rt: &HostRuntime,
    keeper: Keeper<'_>,
    fault: Unexplained,
) -> Result<ExitCode, ProgramFault> {
    match fault {
        Unexplained::NoAnswer => report(rt, keeper.no_answer()),
        Unexplained::Damaged(fault) => {
            let text = format!(in rt.alloc(); "what came is no journal: {fault}")?;
            report(rt, text.as_str())
        }
        Unexplained::OutOfMemory => Err(ProgramFault::OutOfMemory),
    }
}

/// The place that a word names; none where it names none.
pub fn place_of(rt: &HostRuntime, word: &str) -> Result<Option<Place>, ProgramFault> {
    match read_place(rt.alloc(), word) {
        Ok(place) => Ok(Some(place)),
        Err(NameFault::OutOfMemory) => Err(ProgramFault::OutOfMemory),
        Err(_) => Ok(None),
    }
}

/// Refuses a word that names no place.
pub fn refuse_place(rt: &HostRuntime, word: &str) -> Result<ExitCode, ProgramFault> {
    let reason = format!(in rt.alloc(); "bad place {word}")?;
    refuse(rt, reason.as_str())
}
