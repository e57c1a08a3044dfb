//! A folder that is tracked.
ghost use Rattle.std.specs.Prelude.{◌≡◌, not, ◌&&◌, None, IfOk, OnErr};
ghost use Rattle.pana_calls.specs.Session.{one};
ghost use Rattle.std.specs.List.{list_any};
ghost use Rattle.pana_track.specs.Ignored.{is_tracked, tracked};
ghost use Rattle.pana_track.specs.Track.{Breaks, Tracks, is_lost, noticed_in};
ghost use Rattle.pana_track.specs.inner.Reporting.{Asks};

use crate::fault::TrackFault;
use crate::reading::TrackedListing;
use crate::reporting::report_all;
use crate::tally::TrackTally;
use pana_calls::{Call, Holding, HoldingList, NoAnswer, Query, Session};
use pana_copies::DeviceName;
use pana_ignore::Patterns;
use pana_scan::{NoticeList, notice};
use std::alloc::{AllocError, Global};

/// Asks for the holdings of the device; none where they aren't answered.
fn holdings_of<S: Session>(
    session: &mut S,
    device: &DeviceName,
    tally: &mut TrackTally,
) -> Result<Option<HoldingList>, NoAnswer>
    ensures ok { IfOk result (Asks S.step device.now session.old session.new tally.old tally.new) }
    ensures fails { OnErr result (one S.fails session.old device.now (Call.Query (Query.Holdings device.now None)) session.new × (tally.new ≡ tally.old)) }
{
    let query = Query::Holdings {
        device: device.copy_of(),
        from: None,
    };
    let answer = session.call(device, Call::Query(query))?;
    tally.note(&answer);
    Ok(answer.into_holdings())
}

/// Whether the folder has no file, its device has copies that are tracked, and it may not be so.
fn is_lost(found: &TrackedListing, holdings: &HoldingList, may_be_empty: bool) -> bool
    ensures { result ≡ (is_lost found.now holdings.now && not may_be_empty) }
{
    found.listing.rows().is_empty() && has_tracked(&found.patterns, holdings) && !may_be_empty
}

/// Whether a copy is tracked.
fn has_tracked(patterns: &Patterns, holdings: &HoldingList) -> bool
    ensures { result ≡ list_any (is_tracked patterns.now) holdings.now }
{
    holdings
        .as_slice()
        .iter()
        .any(|copy| is_tracked(patterns, copy))
}

/// Whether the patterns don't ignore the copy's path.
fn is_tracked(patterns: &Patterns, copy: &Holding) -> bool
    ensures { result ≡ is_tracked patterns.now copy.now }
{
    !patterns.is_ignored(copy.path.as_str(), false)
}

/// The same copy once more.
fn copy_of(alloc: Global, copy: &Holding) -> Result<Holding, AllocError>
    ensures { IfOk result (λ same. same ≡ copy.now) }
{
    Ok(Holding {
        copy: copy.copy,
        family: copy.family,
        path: copy.path.copy_of()?,
        sum: match &copy.sum {
            Some(sum) => Some(sum.copy_of(alloc)?),
            None => None,
        },
        touch: copy.touch,
    })
}

/// The copies whose paths the patterns don't ignore.
fn tracked(
    alloc: Global,
    patterns: &Patterns,
    holdings: &HoldingList,
) -> Result<HoldingList, AllocError>
    ensures { IfOk result (λ copies. copies ≡ tracked patterns.now holdings.now) }
{
    let mut copies = Vec::new(alloc);
    for copy in holdings.as_slice() {
        if is_tracked(patterns, copy) {
            copies.push(copy_of(alloc, copy)?)?;
        }
    }
    Ok(HoldingList::from_vec(copies))
}

/// What is noticed, of the copies that are tracked.
fn notices_in(
    alloc: Global,
    found: &TrackedListing,
    holdings: &HoldingList,
) -> Result<NoticeList, AllocError>
    ensures { IfOk result (λ notices. notices ≡ noticed_in found.now holdings.now) }
{
    let copies = tracked(alloc, &found.patterns, holdings)?;
    notice(alloc, &copies, &found.listing)
}

/// Reports to a session what was noticed in a folder: files that were renamed, each file that is there, with the sum of what it
/// holds, and those that are missing. What is to be done of each is decided by the session's hall. Returns why no more was
/// reported, where something was left; the tally counts the calls.
///
/// Copies whose paths are ignored are passed over: they stay as they are. Of a folder without any file whose device has other
/// copies nothing is reported, and that is a fault, but where it may be empty: a disk that isn't mounted must remove no copy.
///
/// A file of which something was done is reported again, until nothing is to be done of it, a thousand times at most: then the
/// copy is at that place and holds that sum, and no copy of its family that holds the same is newer or in conflict. It is reported
/// again at once, or, where the session keeps together what several calls make (`Session::keeps_together`), in the next round: a
/// round makes one call about each notice that is left, in order, in lists of a hundred by `call_all`. Then nothing more is
/// reported behind a list in which a report isn't kept.
///
/// # Errors
///
/// `NoAnswer` where a call has none. What was reported before stays.
pub fn track<S: Session>(
    alloc: Global,
    session: &mut S,
    found: &TrackedListing,
    may_be_empty: bool,
    tally: &mut TrackTally,
) -> Result<Option<TrackFault>, NoAnswer>
    ensures ok { IfOk result (Tracks S.step S.keeps_together may_be_empty found.now session.old session.new tally.old tally.new) }
    ensures fails { OnErr result (Breaks S.step S.keeps_together S.fails may_be_empty found.now session.old session.new tally.old tally.new) }
{
    let device = found.listing.device();
    let Some(holdings) = holdings_of(session, device, tally)? else {
        return Ok(Some(TrackFault::OutOfMemory));
    };
    if is_lost(found, &holdings, may_be_empty) {
        return Ok(Some(TrackFault::Empty));
    }
    let Ok(notices) = notices_in(alloc, found, &holdings) else {
        return Ok(Some(TrackFault::OutOfMemory));
    };
    report_all(alloc, session, device, notices.as_slice(), tally)
}
