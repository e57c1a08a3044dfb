//! Sessions at who keeps the reports.

use pana_either::EitherSession;
use pana_hall::Hall;
use pana_keeper::{DaemonClient, Inquiry, Keeper, Sessions, connect, report};
use pana_log::FileDevice;
use pana_store::Store;
use pana_store_file::{LogStore, NoStore, open_hall, open_shared, open_store, read_shared};
use pana_streams::ProgramFault;
use std::process::ExitCode;

/// A session for questions: a journal or a log as it was read, or a daemon.
pub type AskedSession = EitherSession<Hall, DaemonClient>;

/// A session for reports: the store of a journal's file, that of a log in etcd, or a daemon.
pub type ReportedSession = EitherSession<Store<FileDevice>, EitherSession<LogStore, DaemonClient>>;

/// A session at the daemon on this port.
fn client_at(rt: &HostRuntime, port: u16) -> Result<DaemonClient, NoStore> {
    match connect(rt, port) {
        Ok(client) => Ok(client),
        Err(_) => {
            let text = format!(in rt.alloc(); "cannot connect to port {port}")?;
            Err(NoStore::Because(text))
        }
    }
}

/// A session for questions to who keeps the reports. A journal isn't changed, and a log is asked as it is when it is read.
pub fn session_to_ask(rt: &HostRuntime, keeper: Keeper<'_>) -> Result<AskedSession, NoStore> {
    match keeper {
        Keeper::Journal(name) => Ok(EitherSession::Left(open_hall(rt, name)?)),
        Keeper::Log(place) => Ok(EitherSession::Left(read_shared(rt, place)?)),
        Keeper::Daemon(port) => Ok(EitherSession::Right(client_at(rt, port)?)),
    }
}

/// A session for reports to who keeps them.
pub fn session_to_report(rt: &HostRuntime, keeper: Keeper<'_>) -> Result<ReportedSession, NoStore> {
    match keeper {
        Keeper::Journal(name) => Ok(EitherSession::Left(open_store(rt, name)?)),
        Keeper::Log(place) => {
            let store = open_shared(rt, place)?;
            Ok(EitherSession::Right(EitherSession::Left(store)))
        }
        Keeper::Daemon(port) => {
            let client = client_at(rt, port)?;
            Ok(EitherSession::Right(EitherSession::Right(client)))
        }
    }
}

/// Prints why there is no session for the inquiry, and returns the status.
fn refuse<I: Inquiry>(rt: &HostRuntime, refusal: NoStore) -> Result<ExitCode, ProgramFault> {
    match refusal {
        NoStore::Because(text) => I::refuse(rt, text.as_str()),
        NoStore::NoAnswer(text) => report(rt, text.as_str()),
        NoStore::Fault(fault) => Err(fault),
    }
}

/// Sessions at journals' files, at logs in etcd and at daemons.
#[derive(Clone, Copy, Drop)]
pub struct KeptSessions;

impl Sessions for KeptSessions {
    fn ask<I: Inquiry + Drop>(
        &self,
        rt: &HostRuntime,
        keeper: Keeper<'_>,
        inquiry: I,
    ) -> Result<ExitCode, ProgramFault> {
        match session_to_ask(rt, keeper) {
            Ok(mut session) => inquiry.make(rt, &mut session, keeper),
            Err(refusal) => refuse::<I>(rt, refusal),
        }
    }

    fn report<I: Inquiry + Drop>(
        &self,
        rt: &HostRuntime,
        keeper: Keeper<'_>,
        inquiry: I,
    ) -> Result<ExitCode, ProgramFault> {
        match session_to_report(rt, keeper) {
            Ok(mut session) => inquiry.make(rt, &mut session, keeper),
            Err(refusal) => refuse::<I>(rt, refusal),
        }
    }
}
