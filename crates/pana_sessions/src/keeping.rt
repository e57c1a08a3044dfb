//! Standard input, served on a journal that is kept in a file or in a log that others append to.

use pana_keeper::{print_reported, report as report_fault};
use pana_log::FileDevice;
use pana_store::{Store, serve_kept};
use pana_store_file::{LogPlace, LogStore, NoStore, open_shared, open_store};
use pana_streams::{ProgramFault, output};
use pana_wire::{ServeFault, Tap, serve_groups};
use std::process::ExitCode;

/// How many reads a session of the program makes at most.
pub const READS: u64 = 4_294_967_296;

/// Prints why there is no store, and returns the status: that of a fault where what keeps it gives no answer, and else 1.
fn report(rt: &HostRuntime, refusal: NoStore) -> Result<ExitCode, ProgramFault> {
    match refusal {
        NoStore::Because(text) => print_reported(rt, text.as_str()),
        NoStore::NoAnswer(text) => report_fault(rt, text.as_str()),
        NoStore::Fault(fault) => Err(fault),
    }
}

fn serve_input(rt: &HostRuntime, store: &mut Store<FileDevice>) -> Result<ExitCode, ProgramFault> {
    let mut reader = Tap::new(rt.reader());
    let mut writer = Tap::new(output(rt)?);
    match serve_kept(rt.alloc(), &mut reader, &mut writer, store, READS) {
        Ok(_) => Ok(ExitCode::SUCCESS),
        Err(ServeFault::NoAnswer) => print_reported(rt, "journal failed"),
        Err(fault) => Err(ProgramFault::of_serving(fault)),
    }
}

/// Serves standard input as `run` does, on the store of a journal's file, which keeps each entry before its `Done` is
/// printed.
pub fn run_kept(rt: &HostRuntime, name: &str) -> Result<ExitCode, ProgramFault> {
    match open_store(rt, name) {
        Ok(mut store) => serve_input(rt, &mut store),
        Err(refusal) => report(rt, refusal),
    }
}

/// Prints why a log has given no answer, and returns the status.
fn report_log(rt: &HostRuntime, store: &LogStore) -> Result<ExitCode, ProgramFault> {
    match store.foreign() {
        Some(number) => {
            let text = format!(in rt.alloc(); "log: what stands at {number} is no entry")?;
            print_reported(rt, text.as_str())
        }
        None => print_reported(rt, "the log gives no answer"),
    }
}

fn serve_input_shared(rt: &HostRuntime, store: &mut LogStore) -> Result<ExitCode, ProgramFault> {
    let mut reader = Tap::new(rt.reader());
    let mut writer = Tap::new(output(rt)?);
    match serve_groups(rt.alloc(), &mut reader, &mut writer, store, READS) {
        Ok(_) => Ok(ExitCode::SUCCESS),
        Err(ServeFault::NoAnswer) => report_log(rt, store),
        Err(fault) => Err(ProgramFault::of_serving(fault)),
    }
}

/// Serves standard input as `run` does, on the store of a log in etcd, into which each entry is put before its `Done` is printed.
pub fn run_shared(rt: &HostRuntime, place: LogPlace<'_>) -> Result<ExitCode, ProgramFault> {
    match open_shared(rt, place) {
        Ok(mut store) => serve_input_shared(rt, &mut store),
        Err(refusal) => report(rt, refusal),
    }
}
