//! What was noticed, reported to a session.
ghost use Rattle.std.specs.Prelude.{◌≡◌, IfOk, OnErr};
ghost use Rattle.pana_calls.specs.Session.{one};
ghost use Rattle.pana_scan.specs.Notice.{call_of};
ghost use Rattle.pana_track.specs.inner.Rounds.{BreaksOffBy, ReportsAllBy};
ghost use Rattle.pana_track.specs.inner.Reporting.{BreaksOff, BreaksOne, CallsOnce, ReportsAll, ReportsOne, end_of};

use crate::fault::TrackFault;
use crate::rounds::report_by_rounds;
use crate::tally::TrackTally;
use pana_calls::{Answer, NoAnswer, Reply, Session};
use pana_copies::DeviceName;
use pana_scan::Notice;
use std::alloc::Global;

/// How often a file that was found is reported at most.
const MOST_CALLS: u32 = 1_000;

/// How a call that reports something ends.
#[derive(Clone, Copy)]
pub(crate) enum CallEnd {
    /// Memory ran out before the call.
    OutOfMemory,
    /// The report can't be kept.
    NotKept,
    /// Something was done of a file that was found, so something may be left to be done.
    Moved,
    /// Nothing is left to be done.
    Settled,
}

/// How a call with this answer ends.
fn end_of(notice: &Notice, answer: &Answer) -> CallEnd
    ensures { result ≡ end_of notice.now answer.now }
{
    match (notice, answer) {
        (_, Answer::NotKept) => CallEnd::NotKept,
        (Notice::Found { .. }, Answer::Given(Reply::Did { .. })) => CallEnd::Moved,
        _ => CallEnd::Settled,
    }
}

/// Makes one call about something that was noticed.
fn call_once<S: Session>(
    alloc: Global,
    session: &mut S,
    device: &DeviceName,
    notice: &Notice,
    tally: &mut TrackTally,
) -> Result<CallEnd, NoAnswer>
    ensures ok { IfOk result (CallsOnce S.step device.now notice.now session.old session.new tally.old tally.new) }
    ensures fails { OnErr result (one S.fails session.old device.now (call_of device.now notice.now) session.new × (tally.new ≡ tally.old)) }
{
    let Ok(call) = notice.call(alloc, device) else {
        return Ok(CallEnd::OutOfMemory);
    };
    let answer = session.call(device, call)?;
    tally.note(&answer);
    let end = end_of(notice, &answer);
    drop(answer);
    Ok(end)
}

/// Reports one thing that was noticed: a file that was found as often as something is done of it, and else once.
fn report_one<S: Session>(
    alloc: Global,
    session: &mut S,
    device: &DeviceName,
    notice: &Notice,
    tally: &mut TrackTally,
) -> Result<Option<TrackFault>, NoAnswer>
    ensures ok { IfOk result (ReportsOne S.step device.now notice.now session.old session.new tally.old tally.new) }
    ensures fails { OnErr result (BreaksOne S.step (one S.fails) device.now notice.now session.old session.new tally.old tally.new) }
{
    for _ in 0..MOST_CALLS {
        match call_once(alloc, session, device, notice, tally)? {
            CallEnd::OutOfMemory => return Ok(Some(TrackFault::OutOfMemory)),
            CallEnd::NotKept => return Ok(Some(TrackFault::NotKept)),
            CallEnd::Moved => {}
            CallEnd::Settled => return Ok(None),
        }
    }
    Ok(None)
}

/// Reports one notice after another, and returns why no more was reported, where something was left.
fn report_in_turn<S: Session>(
    alloc: Global,
    session: &mut S,
    device: &DeviceName,
    notices: &[Notice],
    tally: &mut TrackTally,
) -> Result<Option<TrackFault>, NoAnswer>
    ensures ok { IfOk result (ReportsAll S.step device.now notices.now session.old session.new tally.old tally.new) }
    ensures fails { OnErr result (BreaksOff S.step (one S.fails) device.now notices.now session.old session.new tally.old tally.new) }
{
    for notice in notices {
        if let Some(fault) = report_one(alloc, session, device, notice, tally)? {
            return Ok(Some(fault));
        }
    }
    Ok(None)
}

/// Reports all that was noticed, in order, by rounds where the session keeps together what several calls make, and returns why no
/// more was reported, where something was left.
pub(crate) fn report_all<S: Session>(
    alloc: Global,
    session: &mut S,
    device: &DeviceName,
    notices: &[Notice],
    tally: &mut TrackTally,
) -> Result<Option<TrackFault>, NoAnswer>
    ensures ok { IfOk result (ReportsAllBy S.step device.now notices.now session.old session.new tally.old tally.new S.keeps_together) }
    ensures fails { OnErr result (BreaksOffBy S.step device.now notices.now session.old session.new tally.old tally.new S.keeps_together S.fails) }
{
    if session.keeps_together() {
        report_by_rounds(alloc, session, device, notices, tally)
    } else {
        report_in_turn(alloc, session, device, notices, tally)
    }
}
