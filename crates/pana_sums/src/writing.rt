//! A table's file as bytes.
ghost use Rattle.std.specs.Prelude.{◌≡◌, ◌++◌, OnOk};
ghost use Rattle.pana_sums.specs.File.{time_bytes, record_of};

use crate::file_time::FileTime;
use crate::signature::Signature;
use std::alloc::{AllocError, Global};

/// Writes the 12 bytes of a time at the end.
fn push_time(bytes: &mut Vec<u8>, time: &FileTime) -> Result<(), AllocError>
    ensures { OnOk result (bytes.new.items ≡ bytes.old.items ++ time_bytes time.now) }
{
    bytes.extend_from_slice(&time.seconds.to_be_bytes())?;
    bytes.extend_from_slice(&time.nanoseconds.to_be_bytes())?;
    Ok(())
}

/// Writes the 80 bytes of a record at the end.
pub(crate) fn push_record(
    bytes: &mut Vec<u8>,
    signature: &Signature,
    digest: &[u8; 32],
) -> Result<(), AllocError>
    ensures { OnOk result (bytes.new.items ≡ bytes.old.items ++ record_of (signature.now, digest.now)) }
{
    bytes.extend_from_slice(&signature.device.to_be_bytes())?;
    bytes.extend_from_slice(&signature.inode.to_be_bytes())?;
    bytes.extend_from_slice(&signature.size.to_be_bytes())?;
    push_time(bytes, &signature.modified)?;
    push_time(bytes, &signature.changed)?;
    bytes.extend_from_slice(digest)?;
    Ok(())
}
