//! Files that the program keeps for itself: each is read whole, and written anew in the place of the one before.

use std::alloc::AllocError;
use std::fs::{self, File, OpenOptions};
use std::io::{self, ErrorKind, Read, Write};
use std::os::unix::fs::OpenOptionsExt;

/// The bytes of the regular file with this name, which has so many at most.
pub(crate) fn bytes_of(rt: &HostRuntime, name: &str, most: u64) -> io::Result<Vec<u8>> {
    let found = fs::symlink_metadata(rt, name)?;
    if !found.is_file() || found.len() > most {
        return Err(ErrorKind::InvalidInput.into());
    }
    let mut bytes = Vec::new(rt.alloc());
    File::open(rt, name)?.take(most).read_to_end(&mut bytes)?;
    Ok(bytes)
}

/// Whether the file begins so.
fn begins(rt: &HostRuntime, name: &str, beginning: &[u8]) -> io::Result<bool> {
    let mut bytes = Vec::new(rt.alloc());
    File::open(rt, name)?
        .take(beginning.len() as u64)
        .read_to_end(&mut bytes)?;
    Ok(bytes.as_slice() == beginning)
}

/// Whether the file with this name may be written anew: there is none, or it is empty, or begins so. Another file would be lost.
pub(crate) fn may_replace(rt: &HostRuntime, name: &str, beginning: &[u8]) -> bool {
    match fs::symlink_metadata(rt, name) {
        Ok(found) if found.is_file() => {
            found.len() == 0 || begins(rt, name, beginning).unwrap_or(false)
        }
        Ok(_) => false,
        Err(error) => error.kind() == ErrorKind::NotFound,
    }
}

/// Writes a new file that only its owner may read, and has it stand in the place of another.
fn write_over(rt: &HostRuntime, name: &str, new: &str, bytes: &[u8]) -> io::Result<()> {
    let mut file = OpenOptions::new()
        .write(true)
        .create(true)
        .truncate(true)
        .mode(0o600)
        .open(rt, new)?;
    file.write_all(bytes)?;
    fs::rename(rt, new, name)
}

/// Has a file of these bytes stand in the place of the one before, without a sync. Where that can't be, the one before stays.
pub(crate) fn replace(rt: &HostRuntime, name: &str, bytes: &[u8]) -> Result<(), AllocError> {
    let new = format!(in rt.alloc(); "{name}.new")?;
    if write_over(rt, name, new.as_str(), bytes).is_err() {
        let _ = fs::remove_file(rt, new.as_str());
    }
    Ok(())
}
