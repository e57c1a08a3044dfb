//! What the words of `panad track` come to.

use crate::track::{TrackWishes, track};
use pana_arguments::TrackArguments;
use pana_files::{ReadingWishes, fault_of_roots};
use pana_keeper::{form_of, keeper_of, refuse};
use pana_roots::{Root, RootFault, roots_of};
use pana_streams::ProgramFault;
use std::marker::Sync;
use std::process::ExitCode;
use std::thread::Threads;

/// What is wanted of the folders that the words name.
fn wishes_of<'a>(
    rt: &HostRuntime,
    arguments: TrackArguments<'a>,
) -> Result<TrackWishes<'a>, ProgramFault> {
    let keeper = keeper_of(arguments.kept_by);
    let reading = ReadingWishes {
        journal: keeper.journal(),
        sums: arguments.sums,
        ignored: arguments.ignored,
        reads_all: arguments.reads_all,
        stays: arguments.stays,
        is_verbose: arguments.is_verbose,
    };
    Ok(TrackWishes {
        keeper,
        reading,
        may_be_empty: arguments.may_be_empty,
        form: form_of(rt, arguments.shown_as)?,
    })
}

/// Tracks these folders as the words ask for, or refuses them.
fn track_roots<T: Threads + Sync>(
    rt: &HostRuntime,
    threads: &T,
    roots: &[Root<'_>],
    arguments: TrackArguments<'_>,
) -> Result<ExitCode, ProgramFault> {
    let wishes = wishes_of(rt, arguments)?;
    match fault_of_roots(rt, roots)? {
        Some(reason) => refuse(rt, reason.as_str()),
        None => track(rt, threads, roots, wishes),
    }
}

/// Tracks the folders that the words name, or refuses the words.
pub fn run<T: Threads + Sync>(
    rt: &HostRuntime,
    threads: &T,
    arguments: TrackArguments<'_>,
) -> Result<ExitCode, ProgramFault> {
    match roots_of(rt.alloc(), arguments.roots) {
        Ok(roots) => track_roots(rt, threads, roots.as_slice(), arguments),
        Err(RootFault::Bad(word)) => {
            let reason = format!(in rt.alloc(); "bad root {word}")?;
            refuse(rt, reason.as_str())
        }
        Err(RootFault::OutOfMemory) => Err(ProgramFault::OutOfMemory),
    }
}
