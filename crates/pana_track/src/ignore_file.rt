//! The patterns of a root.
ghost use Rattle.std.specs.Prelude.{◌≡◌, ◌++◌, IsTrue, Some, map, IfOk, IfErr, OnOk, option_and_then, option_map};
ghost use Rattle.pana_scan.specs.Scan.{IsFresh};
ghost use Rattle.pana_track.specs.IgnoreFile.{HasPatterns, IsBehind, ReadsPatterns, is_ignore_file, spelled, text_of};
ghost use Rattle.pana_track.specs.inner.Searching.{IsUnread, Searches};

use crate::read_fault::ReadFault;
use pana_ignore::Patterns;
use pana_scan::{Disk, DiskFault, Entry, Kind, ScanFault};
use std::alloc::{AllocError, Global};

/// The name of the file with a root's patterns.
const IGNORE_FILE: &str = ".panadignore";

/// How many entries of a root are looked at.
const MOST_ENTRIES: u64 = 1_000_000;

/// How many bytes the file may have.
const MOST_BYTES: usize = 1_048_576;

/// How many reads it is read in at most.
const MOST_READS: u64 = 1_048_577;

/// How many bytes are read at a time.
const PIECE: usize = 4_096;

/// Whether the entry is the file with the patterns.
fn is_ignore_file(entry: &Entry) -> bool
    ensures { result ≡ is_ignore_file entry.now }
{
    match entry {
        Entry::Named { name, kind } => *kind == Kind::File && name.as_str() == IGNORE_FILE,
        Entry::NotText => false,
    }
}

/// Whether the root has the file with the patterns.
fn has_ignore_file<D: Disk>(alloc: Global, disk: &mut D, root: &str) -> Result<bool, ReadFault>
    requires { IsFresh (D.has_failed disk.old) (D.entries disk.old) (D.faults disk.old) }
    ensures known { IsTrue D.is_known → Searches ((D.tree disk.old).names root.now) result }
    ensures tree { IsTrue D.is_known → D.tree disk.new ≡ D.tree disk.old }
{
    disk.list(root)?;
    while let Some(entry) = disk.next(alloc)? {
        if is_ignore_file(&entry) {
            return Ok(true);
        }
        if disk.met() > MOST_ENTRIES {
            return Err(ReadFault::Scan(ScanFault::TooMany));
        }
    }
    Ok(false)
}

/// The bytes of the file that was opened; none where a read fails or the file is too long.
fn text_of<D: Disk>(alloc: Global, disk: &mut D) -> Result<Option<Vec<u8>>, AllocError>
    ensures known { IsTrue D.is_known → IfOk result (λ text. option_map (λ bytes. bytes.items) text ≡ text_of (D.content disk.old)) }
{
    let mut text = Vec::new(alloc);
    let mut piece = [0u8; PIECE];
    for _made in 0..MOST_READS {
        let Ok(count) = disk.read(&mut piece) else {
            return Ok(None);
        };
        if count == 0 {
            return Ok(Some(text));
        }
        if text.len() + count > MOST_BYTES {
            return Ok(None);
        }
        text.extend_from_slice(&piece[..count])?;
    }
    Ok(None)
}

/// The text of the file with this whole path.
fn read_text<D: Disk>(alloc: Global, disk: &mut D, file: &str) -> Result<Vec<u8>, ReadFault>
    ensures ok { IfOk result (λ text. IsTrue D.is_known → option_and_then text_of ((D.tree disk.old).content file.now) ≡ Some text.items) }
    ensures err { IfErr result (λ fault. IsTrue D.is_known → IsUnread ((D.tree disk.old).content file.now) fault) }
{
    match disk.open(file) {
        Ok(()) => {}
        Err(DiskFault::OutOfMemory) => return Err(ReadFault::Scan(ScanFault::OutOfMemory)),
        Err(DiskFault::Failed) => return Err(ReadFault::IgnoreFile),
    }
    text_of(alloc, disk)?.ok_or(ReadFault::IgnoreFile)
}

/// The patterns of the root's file.
fn patterns_in<D: Disk>(alloc: Global, disk: &mut D, root: &str) -> Result<Patterns, ReadFault>
    requires { IsFresh (D.has_failed disk.old) (D.entries disk.old) (D.faults disk.old) }
    ensures known { IsTrue D.is_known → ReadsPatterns (D.tree disk.old) root.now result }
{
    if !has_ignore_file(alloc, disk, root)? {
        return Ok(Patterns::new(alloc));
    }
    let file = format!(in alloc; "{root}/{IGNORE_FILE}")?;
    let text = read_text(alloc, disk, file.as_str())?;
    Ok(Patterns::read(alloc, text.as_slice())?)
}

/// Puts the patterns that these texts spell behind the others.
fn push_all(patterns: &mut Patterns, more: &[&str]) -> Result<(), AllocError>
    ensures { OnOk result (patterns.new ≡ patterns.old ++ spelled (map (λ text. text.now) more.now)) }
{
    for text in more {
        patterns.push(text)?;
    }
    Ok(())
}

/// The patterns of a root: those of its file `.panadignore`, where it has one as a regular file, and behind them, so that
/// they decide first, those that these texts spell.
///
/// # Errors
///
/// `Scan` where the root can't be listed, or has more than 1,000,000 entries and the file isn't among the first;
/// `IgnoreFile` where the file can't be read, or has more than 1,048,576 bytes; `TooManyLines` and `LongLine` by its
/// lines.
pub(crate) fn patterns_of<D: Disk>(
    alloc: Global,
    disk: &mut D,
    root: &str,
    more: &[&str],
) -> Result<Patterns, ReadFault>
    requires { IsFresh (D.has_failed disk.old) (D.entries disk.old) (D.faults disk.old) }
    ensures known { IsTrue D.is_known → HasPatterns (D.tree disk.old) root.now (map (λ text. text.now) more.now) result }
    ensures behind { IfOk result (IsBehind (map (λ text. text.now) more.now)) }
{
    let mut patterns = patterns_in(alloc, disk, root)?;
    push_all(&mut patterns, more)?;
    Ok(patterns)
}
