//! `panad log copy`: a journal is read, and made once more where there is none.

use crate::sessions::{session_to_ask, session_to_report};
use pana_arguments::{CopyArguments, KeptBy};
use pana_calls::NoAnswer;
use pana_history::journal_of;
use pana_journal::Entry;
use pana_keeper::{
    Keeper, asker, fault_of_log, keeper_of, print_line, refuse, report, report_refusal,
};
use pana_shared::ReadFault;
use pana_shared_store::{FillFault, fill};
use pana_store_file::{LogPlace, log_at};
use pana_streams::ProgramFault;
use pana_transfer::{TransferFault, transfer};
use std::process::ExitCode;

/// Prints how many entries were made, or why they weren't, and returns the status.
fn report_end(
    rt: &HostRuntime,
    to: Keeper<'_>,
    count: usize,
    end: Result<(), TransferFault>,
) -> Result<ExitCode, ProgramFault> {
    match end {
        Ok(()) => print_line(rt, format!(in rt.alloc(); "copied {count} entries\n")?, 0),
        Err(TransferFault::NotEmpty) => report(rt, "the target isn't empty"),
        Err(TransferFault::NotNext { number }) => {
            let text = format!(in rt.alloc(); "entry {number} isn't the target's next one")?;
            report(rt, text.as_str())
        }
        Err(TransferFault::NoAnswer) => report(rt, to.no_answer()),
        Err(TransferFault::OutOfMemory) => Err(ProgramFault::OutOfMemory),
    }
}

/// Reports the entries one by one, and prints how many they are.
fn report_all(
    rt: &HostRuntime,
    to: Keeper<'_>,
    entries: &[Entry],
) -> Result<ExitCode, ProgramFault> {
    match session_to_report(rt, to) {
        Ok(mut session) => {
            let end = transfer(rt.alloc(), &mut session, &asker()?, entries);
            report_end(rt, to, entries.len(), end)
        }
        Err(refusal) => report_refusal(rt, refusal),
    }
}

/// The same fault, where entries are put into a log and none is made at a session.
fn fault_of(fault: FillFault) -> TransferFault {
    match fault {
        FillFault::NotEmpty => TransferFault::NotEmpty,
        FillFault::NotNext { number } | FillFault::Unread(ReadFault::Foreign { number }) => {
            TransferFault::NotNext { number }
        }
        FillFault::Full | FillFault::Unread(ReadFault::NoAnswer) => TransferFault::NoAnswer,
        FillFault::Unread(ReadFault::OutOfMemory) => TransferFault::OutOfMemory,
    }
}

/// Puts the entries into a log in etcd, many at once, and prints how many they are.
fn fill_log(
    rt: &HostRuntime,
    place: LogPlace<'_>,
    entries: &[Entry],
) -> Result<ExitCode, ProgramFault> {
    match log_at(rt, place) {
        Ok(mut log) => {
            let end = fill(rt.alloc(), &mut log, entries).map_err(fault_of);
            report_end(rt, Keeper::Log(place), entries.len(), end)
        }
        Err(refusal) => report_refusal(rt, refusal),
    }
}

/// Makes the entries of a journal where it is kept.
fn make_at(rt: &HostRuntime, to: Keeper<'_>, entries: &[Entry]) -> Result<ExitCode, ProgramFault> {
    match to {
        Keeper::Log(place) => fill_log(rt, place, entries),
        to => report_all(rt, to, entries),
    }
}

/// Reads a journal, and makes it where it is to be kept.
fn copy(rt: &HostRuntime, from: Keeper<'_>, to: Keeper<'_>) -> Result<ExitCode, ProgramFault> {
    let mut session = match session_to_ask(rt, from) {
        Ok(session) => session,
        Err(refusal) => return report_refusal(rt, refusal),
    };
    match journal_of(rt.alloc(), &mut session, &asker()?) {
        Ok(Some(entries)) => make_at(rt, to, entries.as_slice()),
        Ok(None) => Err(ProgramFault::OutOfMemory),
        Err(NoAnswer) => report(rt, from.no_answer()),
    }
}

/// What is wrong with the words, if something is.
fn fault_of_words(
    rt: &HostRuntime,
    from: KeptBy<'_>,
    to: KeptBy<'_>,
) -> Result<Option<String>, ProgramFault> {
    match fault_of_log(rt, Some(from))? {
        Some(reason) => Ok(Some(reason)),
        None => fault_of_log(rt, Some(to)),
    }
}

/// Copies a journal as the words ask for, or refuses them.
pub fn run(rt: &HostRuntime, arguments: CopyArguments<'_>) -> Result<ExitCode, ProgramFault> {
    let CopyArguments { from, to } = arguments;
    match fault_of_words(rt, from, to)? {
        Some(reason) => refuse(rt, reason.as_str()),
        None => copy(rt, keeper_of(from), keeper_of(to)),
    }
}
