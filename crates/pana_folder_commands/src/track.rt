//! `panad track`: folders are read, what was noticed is reported to the store of a journal, and what is obsolete or in conflict
//! is printed.

use pana_arguments::VERSION;
use pana_calls::Session;
use pana_commands::{Printout, StatusForm, Untracked, track_on};
use pana_files::{Printed, ReadingWishes, TrackRun, may_keep_sums, read_folders};
use pana_keeper::{
    FAULT, Keeper, asker, connect, print_out_tables, report, report_no_daemon, report_refusal,
};
use pana_roots::Root;
use pana_store_file::{open_shared, open_store};
use pana_streams::{ProgramFault, Tables};
use pana_track::ReadFolder;
use std::alloc::AllocError;
use std::marker::Sync;
use std::process::ExitCode;
use std::thread::Threads;

/// What is wanted beside the folders.
#[derive(Clone, Copy)]
pub struct TrackWishes<'a> {
    pub keeper: Keeper<'a>,
    pub reading: ReadingWishes<'a>,
    pub may_be_empty: bool,
    pub form: StatusForm,
}

/// Keeps what was printed, where nothing was wrong and the same would be printed again.
fn keep(run: Option<TrackRun<'_>>, folders: &[ReadFolder], printout: &Printout) {
    if let Some(run) = run {
        if printout.err.is_empty() && printout.status != FAULT {
            run.keep(folders, printout.out.as_str(), printout.status);
        }
    }
}

/// Reads the folders, reports what was noticed in them to a session, and prints what is obsolete or in conflict. The run keeps that,
/// where there is one.
fn track_by<T: Threads + Sync, S: Session>(
    rt: &HostRuntime,
    threads: &T,
    session: &mut S,
    roots: &[Root<'_>],
    wishes: TrackWishes<'_>,
    run: Option<TrackRun<'_>>,
) -> Result<ExitCode, ProgramFault> {
    let folders = read_folders(rt, threads, roots, wishes.reading)?;
    match track_on(
        rt.alloc(),
        session,
        &asker()?,
        folders.as_slice(),
        wishes.may_be_empty,
        wishes.form,
    ) {
        Ok(printout) => {
            let status = print_out_tables(rt, Tables::Status, &printout);
            keep(run, folders.as_slice(), &printout);
            status
        }
        Err(Untracked::NoAnswer) => report(rt, wishes.keeper.no_answer()),
        Err(Untracked::OutOfMemory) => Err(ProgramFault::OutOfMemory),
    }
}

/// All that decides what a run prints, beside the folders, the journal and how they are read.
fn asked_of(rt: &HostRuntime, wishes: TrackWishes<'_>) -> Result<String, AllocError> {
    let alloc = rt.alloc();
    let may_be_empty = wishes.may_be_empty;
    match wishes.form {
        StatusForm::Table(Some(width)) => {
            format!(in alloc; "{VERSION} {may_be_empty} table {width}")
        }
        StatusForm::Table(None) => format!(in alloc; "{VERSION} {may_be_empty} table"),
        StatusForm::Json => format!(in alloc; "{VERSION} {may_be_empty} json"),
        StatusForm::Nothing => format!(in alloc; "{VERSION} {may_be_empty} nothing"),
    }
}

/// Prints once more what an earlier run has printed, and returns its status.
fn print_again(rt: &HostRuntime, printed: Printed) -> Result<ExitCode, ProgramFault> {
    let printout = Printout {
        out: printed.text,
        err: String::new(rt.alloc()),
        status: printed.status,
    };
    print_out_tables(rt, Tables::Status, &printout)
}

/// Tracks folders by the store of a journal's file. Where the journal and the folders are as they were in a run that had nothing to
/// report, what that one has printed is printed again.
fn track_kept<T: Threads + Sync>(
    rt: &HostRuntime,
    threads: &T,
    journal: &str,
    roots: &[Root<'_>],
    wishes: TrackWishes<'_>,
) -> Result<ExitCode, ProgramFault> {
    let asked = asked_of(rt, wishes)?;
    let run = TrackRun::begin(rt, journal, roots, wishes.reading, asked.as_str());
    if let Some(run) = run {
        if let Some(printed) = run.printed()? {
            return print_again(rt, printed);
        }
    }
    match open_store(rt, journal) {
        Ok(mut store) => track_by(rt, threads, &mut store, roots, wishes, run),
        Err(refusal) => report_refusal(rt, refusal),
    }
}

/// What is printed where the file that was named for sums is another one, which would be lost. That beside the journal is the
/// program's own by its name.
fn fault_of_sums(rt: &HostRuntime, wishes: TrackWishes<'_>) -> Result<Option<String>, AllocError> {
    match wishes.reading.sums {
        Some(name) if !may_keep_sums(rt, name) => {
            Ok(Some(format!(in rt.alloc(); "{name} is no file of sums")?))
        }
        _ => Ok(None),
    }
}

/// Reads the folders, reports what was noticed in them to whoever keeps the reports, and prints what is obsolete or in conflict. The
/// session begins before they are read, so one that can't be had is reported at once.
pub fn track<T: Threads + Sync>(
    rt: &HostRuntime,
    threads: &T,
    roots: &[Root<'_>],
    wishes: TrackWishes<'_>,
) -> Result<ExitCode, ProgramFault> {
    if let Some(text) = fault_of_sums(rt, wishes)? {
        return report(rt, text.as_str());
    }
    match wishes.keeper {
        Keeper::Journal(name) => track_kept(rt, threads, name, roots, wishes),
        Keeper::Log(place) => match open_shared(rt, place) {
            Ok(mut store) => track_by(rt, threads, &mut store, roots, wishes, None),
            Err(refusal) => report_refusal(rt, refusal),
        },
        Keeper::Daemon(port) => match connect(rt, port) {
            Ok(mut client) => track_by(rt, threads, &mut client, roots, wishes, None),
            Err(_) => report_no_daemon(rt, port),
        },
    }
}
