//! What became of folders that were tracked, as lines.
ghost use Rattle.std.specs.Prelude.{◌≡◌, ◌++◌, [], codes, IfOk, string_bytes};
ghost use Rattle.pana_track.specs.Folder.{counted_line, end_lines, is_fault, refused_line, stop_line, tracked_lines};

use crate::fault::TrackFault;
use crate::read_fault::ReadFault;
use crate::tally::TrackTally;
use pana_copies::DeviceName;
use std::alloc::{AllocError, Global};

/// What became of a folder that was to be tracked.
#[derive(Clone, Copy, PartialEq, Eq)]
pub enum FolderEnd {
    /// It couldn't be read, so nothing was reported.
    Unread(ReadFault),
    Tracked(FolderTally),
}

/// What was counted of a folder.
#[derive(Clone, Copy, PartialEq, Eq)]
pub struct FolderTally {
    /// What became of its calls.
    pub calls: TrackTally,
    /// Why no more was reported, where something was left.
    pub stop: Option<TrackFault>,
    /// How many names were passed over.
    pub skipped: u64,
    /// How many files couldn't be read.
    pub unreadable: u64,
}

/// A line about so many things of a device; nothing where there is none.
fn counted_line(
    alloc: Global,
    device: &DeviceName,
    count: u64,
    what: &str,
) -> Result<String, AllocError>
    ensures { IfOk result (λ line. string_bytes line ≡ counted_line device.now count what.now) }
{
    if count == 0 {
        return Ok(String::new(alloc));
    }
    format!(in alloc; "panad: {}: {count} {what}\n", device.as_str())
}

/// The line about reports that were refused, where some were.
fn refused_line(
    alloc: Global,
    device: &DeviceName,
    calls: &TrackTally,
) -> Result<String, AllocError>
    ensures { IfOk result (λ line. string_bytes line ≡ refused_line device.now calls.now) }
{
    match calls.cause {
        Some(cause) => format!(in alloc;
            "panad: {}: {} reports refused, the first {cause}\n",
            device.as_str(),
            calls.refused
        ),
        None => Ok(String::new(alloc)),
    }
}

/// The line that says why no more was reported.
fn stop_line(
    alloc: Global,
    device: &DeviceName,
    stop: Option<TrackFault>,
) -> Result<String, AllocError>
    ensures { IfOk result (λ line. string_bytes line ≡ stop_line device.now stop) }
{
    match stop {
        Some(TrackFault::Empty) => format!(in alloc;
            "panad: {}: folder is empty, nothing reported; --empty if it is meant\n",
            device.as_str()
        ),
        Some(fault) => format!(in alloc;
            "panad: {}: {fault}, nothing more reported\n",
            device.as_str()
        ),
        None => Ok(String::new(alloc)),
    }
}

/// The lines about a folder that was tracked.
fn tracked_lines(
    alloc: Global,
    device: &DeviceName,
    tally: &FolderTally,
) -> Result<String, AllocError>
    ensures { IfOk result (λ lines. string_bytes lines ≡ tracked_lines device.now tally.now) }
{
    let skipped = counted_line(alloc, device, tally.skipped, "names skipped")?;
    let unreadable = counted_line(alloc, device, tally.unreadable, "files cannot be read")?;
    let refused = refused_line(alloc, device, &tally.calls)?;
    let stop = stop_line(alloc, device, tally.stop)?;
    format!(in alloc; "{skipped}{unreadable}{refused}{stop}")
}

impl FolderEnd {
    /// The lines for standard error about the folder of this device: what was passed over, refused or wrong.
    pub fn lines(&self, alloc: Global, device: &DeviceName) -> Result<String, AllocError>
        ensures { IfOk result (λ lines. string_bytes lines ≡ end_lines device.now self.now) }
    {
        match self {
            FolderEnd::Unread(fault) => format!(in alloc;
                "panad: {}: {fault}, nothing reported\n",
                device.as_str()
            ),
            FolderEnd::Tracked(tally) => tracked_lines(alloc, device, tally),
        }
    }

    /// Whether something wasn't reported that should have been. Takes no memory.
    pub fn is_fault(&self) -> bool
        ensures { result ≡ is_fault self.now }
    {
        match self {
            FolderEnd::Unread(_) => true,
            FolderEnd::Tracked(tally) => tally.stop.is_some() || tally.calls.refused != 0,
        }
    }
}
