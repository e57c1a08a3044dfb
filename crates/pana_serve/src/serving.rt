//! What the words of `serve` make the daemon do, and what the program says at the end.
ghost use Rattle.std.specs.Prelude.{◌≡◌, ◌≤◌, [], IfErr, IfOk, length, string_bytes};
ghost use Rattle.pana_serve.specs.Program.{Comes, Says, status_of};
ghost use Rattle.pana_daemon.specs.Desk.{RequestSteps};
ghost use Rattle.pana_roots.specs.Root.{folders_of};
ghost use Rattle.pana_daemon.specs.Serve.{EndsDaemon};

use crate::system::System;
use pana_daemon::{
    Alarm, DaemonEnd, DaemonFault, Folder, LateFault, Listener, Looks, Patience, PatientReader,
    PatientWriter, RootFolder, StandardInput, serve,
};
use pana_hall::Hall;
use pana_roots::{Disks, RootFault, roots_of};
use std::alloc::{AllocError, Global};
use std::fmt;
use std::io::{BufWriter, Read, Write};
use std::marker::Sync;
use std::net::Ipv4Addr;
use std::sync::Wait;
use std::thread::Threads;
use std::time::Clock;

/// What the words of `serve` ask for.
#[derive(Clone, Copy)]
pub struct Wishes<'a> {
    /// The port of 127.0.0.1 to listen on.
    pub port: u16,
    /// The name of the journal; a new hall is served where there is none.
    pub journal: Option<&'a str>,
    /// The words that name roots.
    pub roots: &'a [&'a str],
    /// How their folders are looked at.
    pub looks: Looks,
    /// How many connections are wanted; all where there is no number.
    pub wanted: Option<u64>,
    pub patience: Patience,
}

/// What has come of the words.
#[derive(Drop)]
pub enum Outcome<'a, E> {
    /// This word names no root.
    BadRoot(&'a str),
    /// The port can't be listened on.
    CannotListen,
    /// The journal can't be used.
    NoStore(E),
    /// Nothing has begun.
    NotBegun(DaemonFault),
    /// It has served and ended, and this has gone wrong.
    Ended(Option<LateFault>),
}

/// What has come of the words where the daemon was begun.
fn outcome_of<'a, S: Drop, E>(served: Result<DaemonEnd<S>, DaemonFault>) -> Outcome<'a, E>
    ensures ok { IfOk served (λ ended. result ≡ Outcome.Ended ended.fault) }
    ensures err { IfErr served (λ fault. result ≡ Outcome.NotBegun fault) }
{
    match served {
        Ok(ended) => Outcome::Ended(ended.fault),
        Err(fault) => Outcome::NotBegun(fault),
    }
}

/// Does what the words of `serve` ask for: binds the port of 127.0.0.1, opens the journal where they name one, and has the
/// daemon serve its store, or else a new hall, until it ends.
pub fn serve_on<'a, Y: System, T: Threads + Wait + Clock + Sync, K: Disks + Sync>(
    rt: &'a HostRuntime,
    threads: &'a T,
    disks: &'a K,
    system: &mut Y,
    wishes: Wishes<'a>,
) -> Outcome<'a, Y::Refusal>
    ensures { Comes (RequestSteps Y.Store.step Y.Store.fails Y.Store.settles Y.Store.breaks_off) Y.Store.keeps_together Y.binds Y.opens ⟦<PatientReader<'a, T, Alarm<'a>> as Read>⟧.remaining ⟦<BufWriter<PatientWriter<'a, T, Alarm<'a>>, Global> as Write>⟧.contents ⟦<StandardInput<'a, 'a, T> as Read>⟧.remaining ⟦<RootFolder<'a, T, K> as Folder>⟧.does disks.now wishes.entry system.old result system.new }
{
    let roots = match roots_of(rt.alloc(), wishes.roots) {
        Ok(roots) => roots,
        Err(RootFault::Bad(word)) => return Outcome::BadRoot(word),
        Err(RootFault::OutOfMemory) => return Outcome::NotBegun(DaemonFault::OutOfMemory),
    };
    let Ok((listener, address)) = system.bind(Ipv4Addr::LOCALHOST, wishes.port) else {
        return Outcome::CannotListen;
    };
    let listener = Listener {
        listener,
        wanted: wishes.wanted,
        patience: wishes.patience,
    };
    let (looks, roots) = (wishes.looks, roots.as_slice());
    let Some(name) = wishes.journal else {
        let Ok(hall) = Hall::new(rt.alloc()) else {
            return Outcome::NotBegun(DaemonFault::OutOfMemory);
        };
        return outcome_of(serve(rt, threads, disks, &address, listener, looks, roots, hall));
    };
    match system.open(name) {
        Ok(store) => outcome_of(serve(rt, threads, disks, &address, listener, looks, roots, store)),
        Err(refusal) => Outcome::NoStore(refusal),
    }
}

impl<E> Outcome<'_, E> {
    /// The exit status: 0 only where it has ended and nothing has gone wrong, and else 1.
    pub fn status(&self) -> u8
        ensures { result ≡ status_of self.now }
    {
        match self {
            Outcome::Ended(None) => 0,
            _ => 1,
        }
    }
}

impl<E: fmt::Display> Outcome<'_, E> {
    /// The line for standard error, which is empty where there is nothing to say, or all was printed. Fails only where
    /// memory runs out.
    pub fn line(&self, alloc: Global, port: u16) -> Result<String, AllocError>
        ensures { IfOk result (λ line. Says E.output port self.now (string_bytes line)) }
    {
        match self {
            Outcome::BadRoot(word) => format!(in alloc; "panad: bad root {word}\n"),
            Outcome::CannotListen | Outcome::NotBegun(DaemonFault::NoDescriptor) => {
                format!(in alloc; "panad: cannot listen on port {port}\n")
            }
            Outcome::NoStore(refusal) => format!(in alloc; "panad: {refusal}\n"),
            Outcome::NotBegun(DaemonFault::NoThreads)
            | Outcome::Ended(Some(LateFault::NoThreads)) => {
                format!(in alloc; "panad: cannot make threads\n")
            }
            Outcome::NotBegun(DaemonFault::OutOfMemory) => {
                format!(in alloc; "panad: out of memory\n")
            }
            Outcome::NotBegun(DaemonFault::Write) => format!(in alloc; "panad: write failed\n"),
            Outcome::Ended(None) | Outcome::Ended(Some(LateFault::Unanswered)) => {
                Ok(String::new(alloc))
            }
        }
    }
}
