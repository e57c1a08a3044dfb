//! What the words of `panad serve` come to.

use crate::daemon::{self, LogWishes};
use pana_arguments::{KeptBy, ServeArguments};
use pana_daemon::{Looks, Patience};
use pana_files::{OwnFile, RootPatterns, fault_of_roots, passed_over, root_patterns, slices_of};
use pana_keeper::refuse;
use pana_roots::{Root, roots_of};
use pana_serve::Wishes;
use pana_streams::ProgramFault;
use std::alloc::AllocError;
use std::marker::Sync;
use std::process::ExitCode;
use std::sync::Wait;
use std::thread::Threads;
use std::time::Clock;

/// The roots whose folders are tracked: all that the words name, or none. A word that names none is left to the daemon.
fn tracked_roots<'a>(rt: &HostRuntime, wishes: &Wishes<'a>) -> Result<Vec<Root<'a>>, AllocError> {
    if !wishes.looks.is_tracked {
        return Ok(Vec::new(rt.alloc()));
    }
    Ok(roots_of(rt.alloc(), wishes.roots).unwrap_or(Vec::new(rt.alloc())))
}

/// What is passed over in these roots.
fn patterns_of(
    rt: &HostRuntime,
    roots: &[Root<'_>],
    ignored: &[&str],
    kept_by: Option<KeptBy<'_>>,
) -> Result<Vec<RootPatterns>, AllocError> {
    match kept_by {
        Some(KeptBy::Journal(name)) => {
            root_patterns(rt, roots, &[OwnFile::journal(name)], ignored)
        }
        _ => root_patterns(rt, roots, &[], ignored),
    }
}

/// Serves as the words wish, and passes over what matches these patterns.
fn serve_without<T: Threads + Wait + Clock + Sync>(
    rt: &HostRuntime,
    threads: &T,
    patterns: &[RootPatterns],
    wishes: Wishes<'_>,
    stays: bool,
    kept_by: Option<KeptBy<'_>>,
) -> Result<ExitCode, ProgramFault> {
    let slices = slices_of(rt, patterns)?;
    let passed = passed_over(rt, patterns, slices.as_slice())?;
    daemon::serve(
        rt,
        threads,
        passed.as_slice(),
        stays,
        log_wishes(kept_by),
        wishes,
    )
}

/// Serves as the words wish, or refuses those of folders that can't be tracked.
fn obey<T: Threads + Wait + Clock + Sync>(
    rt: &HostRuntime,
    threads: &T,
    wishes: Wishes<'_>,
    ignored: &[&str],
    stays: bool,
    kept_by: Option<KeptBy<'_>>,
) -> Result<ExitCode, ProgramFault> {
    let roots = tracked_roots(rt, &wishes)?;
    match fault_of_roots(rt, roots.as_slice())? {
        Some(reason) => refuse(rt, reason.as_str()),
        None => {
            let patterns = patterns_of(rt, roots.as_slice(), ignored, kept_by)?;
            serve_without(rt, threads, patterns.as_slice(), wishes, stays, kept_by)
        }
    }
}

/// What is wished of the log, if it is one.
fn log_wishes(kept_by: Option<KeptBy<'_>>) -> Option<LogWishes> {
    match kept_by {
        Some(KeptBy::Log(log)) => Some(LogWishes {
            patience: log.patience,
            is_stale: log.is_stale,
        }),
        _ => None,
    }
}

/// The name of the journal's file, or the address of the log.
fn journal_of(kept_by: Option<KeptBy<'_>>) -> Option<&str> {
    match kept_by {
        Some(KeptBy::Journal(name)) => Some(name),
        Some(KeptBy::Log(log)) => Some(log.address),
        _ => None,
    }
}

/// Serves as the words ask for.
pub fn run<T: Threads + Wait + Clock + Sync>(
    rt: &HostRuntime,
    threads: &T,
    arguments: ServeArguments<'_>,
) -> Result<ExitCode, ProgramFault> {
    let wishes = Wishes {
        port: arguments.port,
        journal: journal_of(arguments.kept_by),
        roots: arguments.roots,
        looks: Looks {
            is_tracked: arguments.is_tracked,
            every: arguments.every,
        },
        wanted: arguments.sessions,
        patience: Patience {
            hurry: arguments.hurry,
            idle: arguments.idle,
        },
    };
    obey(
        rt,
        threads,
        wishes,
        arguments.ignored,
        arguments.stays,
        arguments.kept_by,
    )
}
