//! Logs in etcd, found by their addresses.

use crate::journals::NoStore;
use crate::log_place::LogPlace;
use crate::log_store::LogStore;
use pana_etcd::{AddressFault, EtcdAddress, EtcdLog, TcpConnect, random_writer};
use pana_hall::Hall;
use pana_shared::ReadFault;
use pana_shared_store::read_hall;
use pana_streams::ProgramFault;

/// How many milliseconds a second has.
const SECOND: u64 = 1000;

/// What is shown of an address: all but who logs in, and the password.
fn shown(address: &str) -> &str {
    match address.rsplit_once('@') {
        Some((_, behind)) => behind,
        None => address,
    }
}

/// What is printed of an address that is none.
fn text_of(rt: &HostRuntime, address: &str, fault: AddressFault) -> Result<String, ProgramFault> {
    let address = shown(address);
    match fault {
        AddressFault::OutOfMemory => Err(ProgramFault::OutOfMemory),
        fault => Ok(format!(in rt.alloc(); "log {address}: {fault}")?),
    }
}

/// What is wrong with the words for the address of a log, if something is.
pub fn fault_of_address(rt: &HostRuntime, address: &str) -> Result<Option<String>, ProgramFault> {
    match EtcdAddress::parse(rt.alloc(), address) {
        Ok(found) => {
            drop(found);
            Ok(None)
        }
        Err(fault) => Ok(Some(text_of(rt, address, fault)?)),
    }
}

/// Why there is no store, where the log can't be read, or is none of a journal.
fn no_log(rt: &HostRuntime, address: &str, fault: ReadFault) -> NoStore {
    let address = shown(address);
    let Ok(text) = format!(in rt.alloc(); "log {address}: {fault}") else {
        return NoStore::Fault(ProgramFault::OutOfMemory);
    };
    match fault {
        ReadFault::NoAnswer => NoStore::NoAnswer(text),
        ReadFault::Foreign { .. } => NoStore::Because(text),
        ReadFault::OutOfMemory => {
            drop(text);
            NoStore::Fault(ProgramFault::OutOfMemory)
        }
    }
}

/// Why there is no log, where the words are no address of one.
fn no_address(rt: &HostRuntime, address: &str, fault: AddressFault) -> NoStore {
    match text_of(rt, address, fault) {
        Ok(text) => NoStore::Because(text),
        Err(fault) => NoStore::Fault(fault),
    }
}

/// The number of a writer that is new, and what connects it; or why there is none.
fn new_writer(rt: &HostRuntime) -> Result<(u64, TcpConnect), NoStore> {
    let Ok(writer) = random_writer(rt) else {
        return Err(NoStore::Fault(ProgramFault::Read));
    };
    Ok((writer, TcpConnect::new(rt.clone()?)))
}

/// The log at this place, for a writer that is new; or why there is none. Nothing is asked of it yet.
pub fn log_at(rt: &HostRuntime, place: LogPlace<'_>) -> Result<EtcdLog<TcpConnect>, NoStore> {
    let found = match EtcdAddress::parse(rt.alloc(), place.address) {
        Ok(found) => found,
        Err(fault) => return Err(no_address(rt, place.address, fault)),
    };
    let patience = u64::from(place.patience) * SECOND;
    match new_writer(rt) {
        Ok((writer, connect)) => { Ok(EtcdLog::new(rt.alloc(), connect, found, writer, patience)) }
        Err(why) => {
            drop(found);
            Err(why)
        }
    }
}

/// The hall of the log at this place, as the log is now; or why there is none.
pub fn read_shared(rt: &HostRuntime, place: LogPlace<'_>) -> Result<Hall, NoStore> {
    let mut log = log_at(rt, place)?;
    match read_hall(rt.alloc(), &mut log) {
        Ok(hall) => Ok(hall),
        Err(fault) => Err(no_log(rt, place.address, fault)),
    }
}

/// The store of the log at this place, all of which is read; or why there is none.
pub fn open_shared(rt: &HostRuntime, place: LogPlace<'_>) -> Result<LogStore, NoStore> {
    let log = log_at(rt, place)?;
    match LogStore::open(rt.alloc(), log, place.is_stale) {
        Ok(store) => Ok(store),
        Err(fault) => Err(no_log(rt, place.address, fault)),
    }
}
