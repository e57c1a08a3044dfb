//! What the commands of the command line do.

use pana_arguments::{Arguments, CommandLine, CommandName, Unread, command_named};
use pana_folder_commands::{scan_command, track_command};
use pana_inquiry::{
    history_command, overwrite_command, report_command, status_command, tables_command, why_command,
};
use pana_keeper::{FAULT, explain, fault_of_log, refuse};
use pana_sessions::{KeptSessions, log_copy, run_command, watch_command};
use pana_streams::{ProgramFault, take_standard_descriptors};
use std::env::Env;
use std::marker::Sync;
use std::process::ExitCode;
use std::sync::Wait;
use std::thread::Threads;
use std::time::Clock;
use std::{io, str};

/// How many bytes the word that names a command has at most.
const LONGEST_WORD: usize = 16;

/// The words of the command line, or `None` where one isn't UTF-8.
fn words_of(rt: &HostRuntime) -> Result<Option<Vec<String>>, ProgramFault> {
    match std::env::args(rt) {
        Ok(words) => Ok(Some(words.collect(rt.alloc())?)),
        Err(error) if matches!(error.kind(), io::ErrorKind::InvalidData) => Ok(None),
        Err(_) => Err(ProgramFault::OutOfMemory),
    }
}

/// The command that the first word of the command line names. Takes no memory.
fn command_of(rt: &HostRuntime) -> Option<CommandName> {
    let mut word = [0u8; LONGEST_WORD];
    let Ok(length) = rt.arg(1, &mut word) else {
        return None;
    };
    match str::from_utf8(&word[..length]) {
        Ok(name) => command_named(name),
        Err(_) => None,
    }
}

/// The status of a fault. Takes no memory.
fn fault_status(rt: &HostRuntime) -> u8 {
    match command_of(rt) {
        Some(name) if name.answers_by_status() => FAULT,
        _ => 1,
    }
}

/// Prints the fault, where there is one, and returns the status for it, or else the status that there is.
fn status_of(rt: &HostRuntime, end: Result<ExitCode, ProgramFault>) -> ExitCode {
    match end {
        Ok(status) => status,
        Err(fault) => {
            let _ = eprintln!(rt; "panad: {fault}");
            ExitCode::from(fault_status(rt))
        }
    }
}

/// Does what is asked for.
fn obey_arguments<T: Threads + Wait + Clock + Sync>(
    rt: &HostRuntime,
    threads: &T,
    arguments: Arguments<'_>,
) -> Result<ExitCode, ProgramFault> {
    let sessions = &KeptSessions;
    match arguments {
        Arguments::Run(arguments) => run_command::run(rt, arguments),
        Arguments::Show(arguments) => tables_command::show(rt, sessions, arguments),
        Arguments::Load(arguments) => tables_command::load(rt, arguments),
        Arguments::Scan(arguments) => scan_command::run(rt, arguments),
        Arguments::Compare(arguments) => tables_command::compare(rt, arguments),
        Arguments::Serve(arguments) => pana_serve_command::run(rt, threads, arguments),
        Arguments::Track(arguments) => track_command::run(rt, threads, arguments),
        Arguments::Status(arguments) => status_command::run(rt, sessions, arguments),
        Arguments::MayOverwrite(arguments) => overwrite_command::run(rt, sessions, arguments),
        Arguments::Why(arguments) => why_command::run(rt, sessions, arguments),
        Arguments::History(arguments) => history_command::run(rt, sessions, arguments),
        Arguments::Report(arguments) => report_command::run(rt, sessions, arguments),
        Arguments::Watch(arguments) => watch_command::run(rt, arguments),
        Arguments::LogCopy(arguments) => log_copy::run(rt, arguments),
    }
}

fn obey_line<T: Threads + Wait + Clock + Sync>(
    rt: &HostRuntime,
    threads: &T,
    line: &CommandLine<'_>,
) -> Result<ExitCode, ProgramFault> {
    match line.arguments() {
        Ok(arguments) => match fault_of_log(rt, arguments.kept_by())? {
            Some(reason) => refuse(rt, reason.as_str()),
            None => obey_arguments(rt, threads, arguments),
        },
        Err(reason) => refuse(rt, reason),
    }
}

fn obey_words<T: Threads + Wait + Clock + Sync>(
    rt: &HostRuntime,
    threads: &T,
    words: &[String],
) -> Result<ExitCode, ProgramFault> {
    match CommandLine::read(rt.alloc(), words) {
        Ok(line) => obey_line(rt, threads, &line),
        Err(Unread::Explained(explanation)) => explain(rt, &explanation),
        Err(Unread::OutOfMemory) => Err(ProgramFault::OutOfMemory),
    }
}

fn obey<T: Threads + Wait + Clock + Sync>(
    rt: &HostRuntime,
    threads: &T,
) -> Result<ExitCode, ProgramFault> {
    match words_of(rt)? {
        Some(words) => obey_words(rt, threads, words.as_slice()),
        None => refuse(rt, "a word of the command line isn't UTF-8"),
    }
}

/// Does what the command line asks. The status is 0, or for a fault, which is printed in one line on standard error, 1, and 3 of a
/// command that answers by its status, or 2 for a command line that is refused.
pub fn start<T: Threads + Wait + Clock + Sync>(rt: &HostRuntime, threads: &T) -> ExitCode {
    take_standard_descriptors(rt);
    status_of(rt, obey(rt, threads))
}
