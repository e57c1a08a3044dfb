//! Files that get a picture.

use std::fs::{self, File, OpenOptions};
use std::io::{self, Read, Write};

/// How a picture in SVG begins.
const BEGINNING: &[u8; 5] = b"<svg ";

/// Whether the bytes at the head of a file are those of a picture.
fn begins_picture(rt: &HostRuntime, name: &str) -> io::Result<bool> {
    let mut bytes = Vec::new(rt.alloc());
    File::open(rt, name)?
        .take(BEGINNING.len() as u64)
        .read_to_end(&mut bytes)?;
    Ok(bytes.as_slice() == BEGINNING.as_slice())
}

/// Whether a picture may be written to the file with this name: there is none, or it is empty, or has a picture, or is no regular
/// file, as a pipe. Another file, as a journal, would be lost.
pub fn may_write_picture(rt: &HostRuntime, name: &str) -> bool {
    match fs::metadata(rt, name) {
        Ok(found) if found.is_file() => {
            found.len() == 0 || begins_picture(rt, name).unwrap_or(false)
        }
        _ => true,
    }
}

/// Writes a picture to the file with this name, in the place of what was there.
///
/// # Errors
///
/// What the system reports. The file may have a part of the picture then.
pub fn write_picture(rt: &HostRuntime, name: &str, picture: &str) -> io::Result<()> {
    let mut file = OpenOptions::new()
        .write(true)
        .create(true)
        .truncate(true)
        .open(rt, name)?;
    file.write_all(picture.as_bytes())
}
