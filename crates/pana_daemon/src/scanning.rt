//! Looks at a folder, one after another, and what a session reports of them.
ghost use Rattle.std.specs.Prelude.{◌≡◌, Ok, IfOk, IfErr, OnErr, MatchOption, false};
ghost use Rattle.pana_calls.specs.Session.{one};
ghost use Rattle.pana_track.specs.Folder.{BreaksFolder, TracksFolder};
ghost use Rattle.pana_daemon.specs.Desk.{RequestSteps};
ghost use Rattle.pana_daemon.specs.Scan.{BreaksLook, KeepsLook, LooksOnce, Scans, StopsLook, done_as};
ghost use Rattle.pana_daemon.specs.Session.{BreaksOff, GetNone, MakesCall, MayRecover, Settles};
ghost use Rattle.pana_daemon.specs.inner.Scan.{Asks, IsOwn, ReportsOne, ReportsSteps, ScansOnce, StopsReporting, StopsScan, TracksOnce, StopsTracking};

use crate::desk_session::DeskSession;
use crate::folder::{Folder, Look};
use crate::supervisor::Supervisor;
use pana_calls::{Answer, Call, HoldingList, NoAnswer, Query, Reply, Session};
use pana_copies::DeviceName;
use pana_scan::{Baseline, Listing, Plan, ScanFault, Step, plan};
use pana_track::{FolderEnd, ReadFault, TrackedListing, track_folder};
use std::alloc::Global;
use std::marker::Sync;
use std::sync::Wait;
use std::thread::Threads;

/// The entry of a report that was done; none where it wasn't.
fn done_entry(answer: &Answer) -> Option<u64>
    ensures { MatchOption result (done_as answer.now ≡ 0) (λ entry. answer.now ≡ Answer.Given (Reply.Done entry)) }
{
    match answer {
        Answer::Given(Reply::Done { entry }) => Some(*entry),
        _ => None,
    }
}

/// The same of an answer that isn't used further.
fn entry_of(answer: Answer) -> Option<u64>
    ensures { MatchOption result (done_as answer ≡ 0) (λ entry. answer ≡ Answer.Given (Reply.Done entry)) }
{
    let entry = done_entry(&answer);
    drop(answer);
    entry
}

/// Makes the report of a step, and says whether the next one is to be made; it isn't where memory runs out.
fn report<S: Session>(
    alloc: Global,
    session: &mut S,
    device: &DeviceName,
    step: &Step,
    baseline: &mut Baseline,
) -> Result<bool, NoAnswer>
    ensures ok { IfOk result (λ more. ReportsOne S.step device.now step.now session.old session.new more baseline.old baseline.new) }
    ensures fails { IfErr result (λ _. (one S.fails) session.old device.now (Call.Report step.now.report) session.new × (baseline.new ≡ baseline.old)) }
{
    let Ok(report) = step.report.copy_of(alloc) else {
        return Ok(false);
    };
    let answer = session.call(device, Call::Report(report))?;
    let Some(entry) = entry_of(answer) else {
        return Ok(true);
    };
    Ok(baseline.settle(step, entry).is_ok())
}

/// Makes the reports of the steps in order. The rest is passed over where memory runs out.
fn report_all<S: Session>(
    alloc: Global,
    session: &mut S,
    device: &DeviceName,
    steps: &[Step],
    baseline: &mut Baseline,
) -> Result<(), NoAnswer>
    ensures ok { IfOk result (λ _. ReportsSteps S.step device.now steps.now session.old session.new baseline.old baseline.new) }
    ensures fails { IfErr result (λ _. StopsReporting S.step (one S.fails) device.now steps.now session.old session.new baseline.old baseline.new) }
{
    for step in steps {
        if !report(alloc, session, device, step, baseline)? {
            return Ok(());
        }
    }
    Ok(())
}

/// Asks for the holdings of the device; none where they aren't answered.
fn holdings_of<S: Session>(
    session: &mut S,
    device: &DeviceName,
) -> Result<Option<HoldingList>, NoAnswer>
    ensures ok { IfOk result (Asks S.step device.now session.old session.new) }
    ensures fails { IfErr result (λ _. (one S.fails) session.old device.now (Call.Query (Query.Holdings device.now None)) session.new) }
{
    let query = Query::Holdings {
        device: device.copy_of(),
        from: None,
    };
    let answer = session.call(device, Call::Query(query))?;
    Ok(answer.into_holdings())
}

/// Makes the calls of one scan, of a listing of the device.
fn scan<S: Session>(
    alloc: Global,
    session: &mut S,
    device: &DeviceName,
    listing: &Listing,
    baseline: &mut Baseline,
) -> Result<(), NoAnswer>
    requires { listing.now.device ≡ device.now }
    ensures ok { IfOk result (λ _. ScansOnce S.step device.now (Ok listing.now) session.old session.new baseline.old baseline.new) }
    ensures fails { IfErr result (λ _. StopsScan S.step (one S.fails) device.now (Ok listing.now) session.old session.new baseline.old baseline.new) }
{
    let Some(holdings) = holdings_of(session, device)? else {
        return Ok(());
    };
    let Ok(
        Plan {
            steps,
            baseline: planned,
        },
    ) = plan(alloc, baseline, &holdings, listing)
    else {
        return Ok(());
    };
    *baseline = planned;
    report_all(alloc, session, device, steps.as_slice(), baseline)
}

/// Makes the calls for a listing, where there is one of the device.
fn take_scan<S: Session>(
    alloc: Global,
    session: &mut S,
    device: &DeviceName,
    given: Result<Listing, ScanFault>,
    baseline: &mut Baseline,
) -> Result<(), NoAnswer>
    ensures ok { IfOk result (λ _. ScansOnce S.step device.now given session.old session.new baseline.old baseline.new) }
    ensures fails { IfErr result (λ _. StopsScan S.step (one S.fails) device.now given session.old session.new baseline.old baseline.new) }
{
    let Ok(listing) = given else {
        return Ok(());
    };
    if listing.device() != device {
        return Ok(());
    }
    scan(alloc, session, device, &listing, baseline)
}

/// Whether what was read to be tracked is the device's, or nothing could be read.
fn is_own(given: &Result<TrackedListing, ReadFault>, device: &DeviceName) -> bool
    ensures { IsOwn result device.now given.now }
{
    match given {
        Ok(found) => found.listing.device() == device,
        Err(_) => true,
    }
}

/// Makes the calls for a folder that is tracked, where it is one of the device, and says what became of it.
fn take_root<S: Session>(
    alloc: Global,
    session: &mut S,
    device: &DeviceName,
    given: &Result<TrackedListing, ReadFault>,
) -> Result<Option<FolderEnd>, NoAnswer>
    ensures ok { IfOk result (TracksOnce S.step S.keeps_together device.now given.now session.old session.new) }
    ensures fails { OnErr result (StopsTracking S.step S.keeps_together S.fails device.now given.now session.old session.new) }
{
    if !is_own(given, device) {
        return Ok(None);
    }
    Ok(Some(track_folder(alloc, session, given, false)?))
}

/// Makes the calls for what the folder gave, and says what became of one that is tracked.
fn take<S: Session>(
    alloc: Global,
    session: &mut S,
    device: &DeviceName,
    look: Look,
    baseline: &mut Baseline,
) -> Result<Option<FolderEnd>, NoAnswer>
    ensures ok { IfOk result (λ end. LooksOnce S.step device.now S.keeps_together look end session.old session.new baseline.old baseline.new) }
    ensures fails { OnErr result (StopsLook S.step device.now S.keeps_together S.fails look session.old session.new baseline.old baseline.new) }
{
    match look {
        Look::Scanned(given) => {
            take_scan(alloc, session, device, given, baseline)?;
            Ok(None)
        }
        Look::Tracked(given) => take_root(alloc, session, device, &given),
    }
}

/// Makes the calls for what the folder gave, and settles behind them.
fn keep<S: Session>(
    alloc: Global,
    session: &mut S,
    device: &DeviceName,
    look: Look,
    baseline: &mut Baseline,
) -> Result<Option<FolderEnd>, NoAnswer>
    ensures ok { IfOk result (λ end. KeepsLook S.step device.now S.keeps_together S.settles look end session.old session.new baseline.old baseline.new) }
    ensures fails { OnErr result (BreaksLook S.step device.now S.keeps_together S.fails S.breaks_off look session.old session.new baseline.old baseline.new) }
{
    let end = take(alloc, session, device, look, baseline)?;
    session.settle()?;
    Ok(end)
}

/// Takes what the folder gives, one look after another. Of a folder that is scanned it asks for the device's holdings, plans,
/// and makes the report of each step; a step that was done is settled in the baseline, and one that was refused isn't. Of one
/// that is tracked it reports what was noticed, as `track_folder` of `pana_track` does. Behind the calls of each look the
/// session settles, and then the folder learns what became of one that is tracked. A look is passed over from where a fault
/// comes: a listing that failed or is of another device, holdings that were refused, memory that ran out. It is cut short at the
/// first call that has no answer, or where the session can't settle. Then what was done stays settled in the baseline, and the
/// next look plans the rest anew. It ends where the folder gives no more, or at a look that was cut short where no later call
/// will have an answer.
pub fn scanner<T: Threads + Wait + Sync, S: Session + Drop, G: Supervisor, F: Folder>(
    rt: &T,
    alloc: Global,
    session: &mut DeskSession<'_, S, T, G>,
    device: &DeviceName,
    folder: &mut F,
)
    ensures { Scans F.does (MakesCall (RequestSteps S.step S.fails S.settles S.breaks_off) S.keeps_together) S.keeps_together (GetNone (RequestSteps S.step S.fails S.settles S.breaks_off) S.keeps_together) (Settles (RequestSteps S.step S.fails S.settles S.breaks_off)) (BreaksOff (RequestSteps S.step S.fails S.settles S.breaks_off))
        MayRecover device.now folder.old folder.new session.old session.new }
{
    let mut baseline = Baseline::new(alloc);
    for _ in rt.forever() {
        let Some(look) = folder.next(rt) else {
            return;
        };
        match keep(alloc, session, device, look, &mut baseline) {
            Ok(Some(end)) => folder.note_end(&end),
            Ok(None) => {}
            Err(NoAnswer) => {
                if !session.may_recover() {
                    return;
                }
            }
        }
    }
    unreachable!()
}
