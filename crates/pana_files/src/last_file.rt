//! The file that says what a run of `track` printed.
ghost use Rattle.std.specs.Prelude.{◌≡◌, IfOk, IfSome};
ghost use Rattle.pana_files.specs.Last.{file_of};

use sha2::{Digest, Sha256};
use std::alloc::{AllocError, Global};
use std::str;

/// How such a file begins.
pub(crate) const HEAD: &[u8] = b"panad last 1\n";

/// What is kept of a run of `track`.
#[derive(Clone, Copy)]
pub(crate) struct Kept<'a> {
    /// The digest of how the journal looked, and of what was asked for.
    pub asked: [u8; 32],
    /// The digest of how the folders looked.
    pub folders: [u8; 32],
    /// The exit status.
    pub status: u8,
    /// What was printed.
    pub text: &'a str,
}

/// What a file says; none where it isn't, byte for byte, what some run is kept as.
pub(crate) fn kept_in(bytes: &[u8]) -> Option<Kept<'_>>
    ensures { IfSome result (λ kept. file_of kept ≡ bytes.now) }
{
    let (said, digest) = bytes.split_last_chunk::<32>()?;
    if Sha256::digest(said) != *digest {
        return None;
    }
    let behind_line = said.strip_prefix(HEAD)?;
    let (asked, behind_asked) = behind_line.split_first_chunk::<32>()?;
    let (folders, behind_folders) = behind_asked.split_first_chunk::<32>()?;
    let (status, text) = behind_folders.split_first()?;
    let Ok(printed) = str::from_utf8(text) else {
        return None;
    };
    Some(Kept {
        asked: *asked,
        folders: *folders,
        status: *status,
        text: printed,
    })
}

/// The file that says this.
pub(crate) fn file_of(alloc: Global, kept: &Kept<'_>) -> Result<Vec<u8>, AllocError>
    ensures { IfOk result (λ bytes. bytes.items ≡ file_of kept.now) }
{
    let mut bytes = Vec::new(alloc);
    bytes.extend_from_slice(HEAD)?;
    bytes.extend_from_slice(&kept.asked)?;
    bytes.extend_from_slice(&kept.folders)?;
    bytes.push(kept.status)?;
    bytes.extend_from_slice(kept.text.as_bytes())?;
    let digest = Sha256::digest(&bytes);
    bytes.extend_from_slice(&digest)?;
    Ok(bytes)
}
