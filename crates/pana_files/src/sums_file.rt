//! The file that has the sums of files which were read.

use crate::own_file::{bytes_of, may_replace, replace};
use pana_sums::SumTable;
use std::alloc::AllocError;
use std::fs;

/// How many bytes such a file has beside its records, a line and a digest; how many a record has; and how many it has at most,
/// with 4,000,000 records.
const OTHER_BYTES: u64 = 45;

const RECORD_BYTES: u64 = 80;

const MOST_BYTES: u64 = 320_000_045;

/// How many sums that a run didn't meet are kept with its own at most.
const MOST_EARLIER: usize = 1_000_000;

/// How such a file begins, of whatever version.
const BEGINNING: &[u8; 11] = b"panad sums ";

/// The name of the file beside this journal.
pub fn sums_name(rt: &HostRuntime, journal: &str) -> Result<String, AllocError> {
    format!(in rt.alloc(); "{journal}.sums")
}

/// Whether sums may be kept in the file with this name: there is none, or it is empty, or one of sums. Another file would be
/// lost.
pub fn may_keep_sums(rt: &HostRuntime, name: &str) -> bool {
    may_replace(rt, name, BEGINNING)
}

/// The sums that an earlier run has kept in the file with this name: none where there is no such file, or it isn't whole.
pub fn read_sums(rt: &HostRuntime, name: &str) -> Result<SumTable, AllocError> {
    let alloc = rt.alloc();
    let Ok(bytes) = bytes_of(rt, name, MOST_BYTES) else {
        return Ok(SumTable::new(alloc));
    };
    Ok(SumTable::from_bytes(alloc, bytes.as_slice())?.unwrap_or(SumTable::new(alloc)))
}

/// How many sums the file with this name seems to have.
fn count_in_file(rt: &HostRuntime, name: &str) -> u64 {
    match fs::symlink_metadata(rt, name) {
        Ok(found) => found.len().saturating_sub(OTHER_BYTES) / RECORD_BYTES,
        Err(_) => 0,
    }
}

/// Keeps the sums of a run in the file with this name, and where it met fewer than earlier runs have kept, those too, unless they
/// are too many: the files of a disk that wasn't there needn't be read again once it is. Where that fails, the next run reads
/// more files.
pub fn keep_sums(rt: &HostRuntime, name: &str, sums: &SumTable) -> Result<(), AllocError> {
    if (sums.len() as u64) < count_in_file(rt, name) {
        let mut all = read_sums(rt, name)?;
        all.insert_all(sums)?;
        if all.len() <= sums.len().saturating_add(MOST_EARLIER) {
            return write_sums(rt, name, &all);
        }
    }
    write_sums(rt, name, sums)
}

/// Writes the sums to the file with this name.
fn write_sums(rt: &HostRuntime, name: &str, sums: &SumTable) -> Result<(), AllocError> {
    let bytes = sums.to_bytes(rt.alloc())?;
    replace(rt, name, bytes.as_slice())
}
