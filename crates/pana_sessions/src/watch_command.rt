//! `panad watch`: the entries that a daemon's journal gets, as they come, and the families that become split or whole.

use crate::keeping::READS;
use crate::redialing::Redialing;
use pana_arguments::WatchArguments;
use pana_copies::DeviceName;
use pana_journal::Entry;
use pana_keeper::{Keeper, asker, report, report_no_daemon};
use pana_streams::{ProgramFault, print_text};
use pana_watch::{Watch, WatchFault, entry_lines};
use std::process::ExitCode;

/// Prints these entries, and what has become of their families.
fn print_entries(
    rt: &HostRuntime,
    watch: &mut Watch,
    session: &mut Redialing<'_>,
    by: &DeviceName,
    entries: &[Entry],
) -> Result<Result<(), WatchFault>, ProgramFault> {
    print_text(rt, &entry_lines(rt.alloc(), entries)?)?;
    match watch.change_lines(rt.alloc(), session, by, entries) {
        Ok(lines) => {
            print_text(rt, &lines)?;
            Ok(Ok(()))
        }
        Err(fault) => Ok(Err(fault)),
    }
}

/// Prints the next entries, and what has become of their families.
fn watch_on(
    rt: &HostRuntime,
    watch: &mut Watch,
    session: &mut Redialing<'_>,
    by: &DeviceName,
) -> Result<Result<(), WatchFault>, ProgramFault> {
    match watch.take(session, by) {
        Ok(entries) => print_entries(rt, watch, session, by, entries.as_slice()),
        Err(fault) => Ok(Err(fault)),
    }
}

/// Prints entries until there is no answer, and returns why.
fn watch_all(
    rt: &HostRuntime,
    watch: &mut Watch,
    session: &mut Redialing<'_>,
    by: &DeviceName,
) -> Result<WatchFault, ProgramFault> {
    for _ in 0..READS {
        if let Err(fault) = watch_on(rt, watch, session, by)? {
            return Ok(fault);
        }
    }
    Ok(WatchFault::NoAnswer)
}

/// Begins with this entry, or else the next one, and prints entries until there is no answer.
fn watch_from(
    rt: &HostRuntime,
    session: &mut Redialing<'_>,
    from: Option<u64>,
) -> Result<WatchFault, ProgramFault> {
    let by = asker()?;
    match Watch::begin(rt.alloc(), session, &by, from) {
        Ok(mut watch) => watch_all(rt, &mut watch, session, &by),
        Err(fault) => Ok(fault),
    }
}

/// Watches the daemon on this port, and prints why that has ended.
fn watch(
    rt: &HostRuntime,
    port: u16,
    session: &mut Redialing<'_>,
    from: Option<u64>,
) -> Result<ExitCode, ProgramFault> {
    match watch_from(rt, session, from)? {
        WatchFault::NoAnswer => report(rt, Keeper::Daemon(port).no_answer()),
        WatchFault::OutOfMemory => Err(ProgramFault::OutOfMemory),
    }
}

/// Watches the daemon that the words name.
pub fn run(rt: &HostRuntime, arguments: WatchArguments) -> Result<ExitCode, ProgramFault> {
    let port = arguments.port;
    match Redialing::new(rt, port) {
        Ok(mut session) => watch(rt, port, &mut session, arguments.from),
        Err(_) => report_no_daemon(rt, port),
    }
}
