//! What becomes of a folder that is to be tracked.
ghost use Rattle.std.specs.Prelude.{◌≡◌, IfOk, OnErr};
ghost use Rattle.pana_scan.specs.Scan.{unreadable_count};
ghost use Rattle.pana_track.specs.Folder.{BreaksFolder, TracksFolder};

use crate::fault::TrackFault;
use crate::folder_end::{FolderEnd, FolderTally};
use crate::read_fault::ReadFault;
use crate::reading::TrackedListing;
use crate::tally::TrackTally;
use crate::tracking::track;
use pana_calls::{NoAnswer, Session};
use pana_scan::{Found, FoundRow};
use std::alloc::Global;

/// How many of the files couldn't be read.
fn unreadable_count(rows: &[FoundRow]) -> u64
    ensures { result ≡ unreadable_count rows.now }
{
    rows.iter()
        .filter(|row| row.found == Found::Unreadable)
        .count() as u64
}

/// What became of a folder of which this was found.
fn tallied(found: &TrackedListing, calls: TrackTally, stop: Option<TrackFault>) -> FolderEnd
    ensures { result ≡ FolderEnd.Tracked (record { calls = calls; stop = stop; skipped = found.now.listing.skipped; unreadable = unreadable_count found.now.listing.rows }) }
{
    FolderEnd::Tracked(FolderTally {
        calls,
        stop,
        skipped: found.listing.skipped(),
        unreadable: unreadable_count(found.listing.rows()),
    })
}

/// Reports to a session what was noticed in a folder, as `track` does, and says what became of it. Where it couldn't be read
/// nothing is reported.
///
/// # Errors
///
/// `NoAnswer` where a call has none. What was reported before stays.
pub fn track_folder<S: Session>(
    alloc: Global,
    session: &mut S,
    given: &Result<TrackedListing, ReadFault>,
    may_be_empty: bool,
) -> Result<FolderEnd, NoAnswer>
    ensures ok { IfOk result (TracksFolder S.step S.keeps_together may_be_empty given.now session.old session.new) }
    ensures fails { OnErr result (BreaksFolder S.step S.keeps_together S.fails may_be_empty given.now session.old session.new) }
{
    let found = match given {
        Ok(found) => found,
        Err(fault) => return Ok(FolderEnd::Unread(*fault)),
    };
    let mut calls = TrackTally::new();
    let stop = track(alloc, session, found, may_be_empty, &mut calls)?;
    Ok(tallied(found, calls, stop))
}
