//! `panad serve`.

use pana_commands::Printout;
use pana_files::{PassedOver, SystemDisks};
use pana_keeper::{FAULT, print_out};
use pana_log::FileDevice;
use pana_serve::{Outcome, System, Wishes, serve_on};
use pana_store::Store;
use pana_store_file::{LogPlace, LogStore, NoStore, open_shared, open_store};
use pana_streams::ProgramFault;
use std::io;
use std::marker::Sync;
use std::net::{Ipv4Addr, SocketAddr, TcpListener};
use std::process::ExitCode;
use std::sync::Wait;
use std::thread::Threads;
use std::time::Clock;

/// A listener on a port of the host, and its address.
fn listen(rt: &HostRuntime, host: Ipv4Addr, port: u16) -> io::Result<(TcpListener, SocketAddr)> {
    let listener = TcpListener::bind(rt, (host, port))?;
    let address = listener.local_addr()?;
    Ok((listener, address))
}

/// The system's ports, and journals in its files.
#[derive(Drop)]
struct FileMachine<'a> {
    rt: &'a HostRuntime,
}

impl System for FileMachine<'_> {
    type Store = Store<FileDevice>;

    type Refusal = NoStore;

    fn bind(&mut self, host: Ipv4Addr, port: u16) -> io::Result<(TcpListener, SocketAddr)> {
        listen(self.rt, host, port)
    }

    fn open(&mut self, journal: &str) -> Result<Store<FileDevice>, NoStore> {
        open_store(self.rt, journal)
    }
}

/// What is wished of a log in etcd.
#[derive(Clone, Copy)]
pub struct LogWishes {
    /// For how many seconds an answer is waited for.
    pub patience: u32,
    /// Whether questions are answered from what was read before.
    pub is_stale: bool,
}

/// The system's ports, and logs in etcd, of which this is wished.
#[derive(Drop)]
struct LogMachine<'a> {
    rt: &'a HostRuntime,
    log: LogWishes,
}

impl System for LogMachine<'_> {
    type Store = LogStore;

    type Refusal = NoStore;

    fn bind(&mut self, host: Ipv4Addr, port: u16) -> io::Result<(TcpListener, SocketAddr)> {
        listen(self.rt, host, port)
    }

    fn open(&mut self, journal: &str) -> Result<LogStore, NoStore> {
        let place = LogPlace {
            address: journal,
            patience: self.log.patience,
            is_stale: self.log.is_stale,
        };
        open_shared(self.rt, place)
    }
}

/// The status: that of a fault where what keeps the journal gives no answer, and else that of the outcome.
fn status_of(outcome: &Outcome<'_, NoStore>) -> u8 {
    match outcome {
        Outcome::NoStore(NoStore::NoAnswer(_)) => FAULT,
        outcome => outcome.status(),
    }
}

/// Prints what went wrong, where it hasn't been, and returns the status.
fn print_outcome(
    rt: &HostRuntime,
    port: u16,
    outcome: &Outcome<'_, NoStore>,
) -> Result<ExitCode, ProgramFault> {
    let printout = Printout {
        out: String::new(rt.alloc()),
        err: outcome.line(rt.alloc(), port)?,
        status: status_of(outcome),
    };
    print_out(rt, &printout)
}

/// Has the daemon do what the words ask for, by a journal's file, or by a log in etcd, of which something is wished then, on
/// folders that are entered also where they are of another file system, or not, prints what went wrong, where it hasn't been, and
/// returns the status.
pub fn serve<T: Threads + Wait + Clock + Sync>(
    rt: &HostRuntime,
    threads: &T,
    passed_over: &[PassedOver<'_, '_>],
    stays: bool,
    log: Option<LogWishes>,
    wishes: Wishes<'_>,
) -> Result<ExitCode, ProgramFault> {
    let port = wishes.port;
    let disks = SystemDisks {
        files: rt,
        stays,
        passed_over,
    };
    let outcome = match log {
        Some(log) => serve_on(rt, threads, &disks, &mut LogMachine { rt, log }, wishes),
        None => serve_on(rt, threads, &disks, &mut FileMachine { rt }, wishes),
    };
    print_outcome(rt, port, &outcome)
}
