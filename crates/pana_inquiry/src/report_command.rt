//! `panad report`: one report, to the store of a journal or a daemon.

use crate::asking::print_fault;
use pana_arguments::ReportArguments;
use pana_ask::{PlacedReport, ReportWord, Words, WordsFault, read_report, report_on};
use pana_calls::Session;
use pana_copies::DeviceName;
use pana_keeper::{Inquiry, Keeper, Sessions, keeper_of, print_line, refuse};
use pana_streams::ProgramFault;
use std::alloc::{AllocError, Global};
use std::process::ExitCode;

/// What stands behind a word.
fn wanted_by(word: ReportWord) -> &'static str {
    match word {
        ReportWord::Confirm | ReportWord::Withdraw => "one entry",
        ReportWord::Duplicate | ReportWord::Reconcile | ReportWord::Merge | ReportWord::Relocate =>
            "two places",
        _ => "one place",
    }
}

/// Why words are refused, as a text.
fn reason_of(alloc: Global, fault: WordsFault<'_>) -> Result<String, AllocError> {
    match fault {
        WordsFault::Word(text) => format!(in alloc; "bad word {text}"),
        WordsFault::Place(text) => format!(in alloc; "bad place {text}"),
        WordsFault::Sum(text) => format!(in alloc; "bad sum {text}"),
        WordsFault::Entry(text) => format!(in alloc; "bad entry {text}"),
        WordsFault::Count(word) => {
            format!(in alloc; "{} is about {}", word.name(), wanted_by(word))
        }
        WordsFault::NoSum(word) => format!(in alloc; "{} needs --sum", word.name()),
        WordsFault::NeedlessSum(word) => format!(in alloc; "{} takes no --sum", word.name()),
        WordsFault::NeedlessHeir(word) => format!(in alloc; "{} takes no --heir", word.name()),
        WordsFault::OutOfMemory => Err(AllocError),
    }
}

/// Refuses the words.
fn refuse_words(rt: &HostRuntime, fault: WordsFault<'_>) -> Result<ExitCode, ProgramFault> {
    let reason = reason_of(rt.alloc(), fault)?;
    refuse(rt, reason.as_str())
}

/// A report, and the device in whose name it is made.
#[derive(Drop)]
struct Made {
    by: DeviceName,
    what: PlacedReport,
}

impl Inquiry for Made {
    /// Reports, and prints what comes of it.
    fn make<S: Session>(
        self,
        rt: &HostRuntime,
        session: &mut S,
        keeper: Keeper<'_>,
    ) -> Result<ExitCode, ProgramFault> {
        let Made { by, what } = self;
        match report_on(session, &by, what) {
            Ok(end) => print_line(rt, end.line(rt.alloc())?, end.status()),
            Err(fault) => print_fault(rt, keeper, fault),
        }
    }
}

/// What these words report.
fn said<'a>(alloc: Global, arguments: ReportArguments<'a>) -> Result<PlacedReport, WordsFault<'a>> {
    let words = Words {
        word: arguments.word,
        names: arguments.names,
        sum: arguments.sum,
        heir: arguments.heir,
    };
    read_report(alloc, &words)
}

/// The device with this name, or where there is none that of the first place.
fn reporter_of(name: Option<&str>, what: &PlacedReport) -> Option<DeviceName> {
    match name {
        Some(name) => DeviceName::new(name).ok(),
        None => what.device(),
    }
}

/// Reports this, or refuses the words.
fn make<K: Sessions>(
    rt: &HostRuntime,
    sessions: &K,
    arguments: ReportArguments<'_>,
    what: PlacedReport,
) -> Result<ExitCode, ProgramFault> {
    match reporter_of(arguments.by, &what) {
        Some(by) => sessions.report(rt, keeper_of(arguments.kept_by), Made { by, what }),
        None => refuse(rt, "--by has to name the device that reports"),
    }
}

/// Reports what the words say, or refuses them.
pub fn run<K: Sessions>(
    rt: &HostRuntime,
    sessions: &K,
    arguments: ReportArguments<'_>,
) -> Result<ExitCode, ProgramFault> {
    match said(rt.alloc(), arguments) {
        Ok(what) => make(rt, sessions, arguments, what),
        Err(fault) => refuse_words(rt, fault),
    }
}
