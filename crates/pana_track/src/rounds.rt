//! What was noticed, reported by rounds of calls that are made together.
ghost use Rattle.std.specs.Prelude.{◌≡◌, ◌+◌, ◌≤◌, List, ℕ, ◌++◌, [], ◌∷◌, map, length, take, drop, IfOk, OnErr, vec_len, vec_capacity};
ghost use Rattle.std.specs.List.{list_any};
ghost use Rattle.pana_track.specs.Calls.{asked};
ghost use Rattle.pana_track.specs.Reports.{has_moved, is_unkept, messages_of, moved};
ghost use Rattle.pana_track.specs.Tally.{noted_all};
ghost use Rattle.pana_track.specs.inner.Rounds.{BreaksList, BreaksRound, BreaksRounds, MakesRounds, ReportsList, ReportsRound, stop_behind};

use crate::fault::TrackFault;
use crate::tally::TrackTally;
use pana_calls::{Answer, Message, NoAnswer, Reply, Session};
use pana_copies::DeviceName;
use pana_scan::Notice;
use std::alloc::{AllocError, Global};

/// How many calls are made together at most.
const MOST_TOGETHER: usize = 100;

/// How many rounds are made at most.
const MOST_ROUNDS: u32 = 1_000;

/// Whether something was done of a file that was found.
fn has_moved(notice: &Notice, answer: &Answer) -> bool
    ensures { result ≡ has_moved notice.now answer.now }
{
    matches!(
        (notice, answer),
        (Notice::Found { .. }, Answer::Given(Reply::Did { .. }))
    )
}

/// Whether the report isn't kept.
fn is_unkept(answer: &Answer) -> bool
    ensures { result ≡ is_unkept answer.now }
{
    match answer {
        Answer::Given(_) => false,
        Answer::NotKept => true,
    }
}

/// The calls about these notices, by the device.
fn messages_of(
    alloc: Global,
    device: &DeviceName,
    notices: &[&Notice],
) -> Result<Vec<Message>, AllocError>
    ensures { IfOk result (λ messages. messages.items ≡ messages_of device.now (map (λ notice. notice.now) notices.now)) }
{
    let mut messages = Vec::new(alloc);
    for notice in notices {
        messages.push(Message {
            by: device.copy_of(),
            call: notice.call(alloc, device)?,
        })?;
    }
    Ok(messages)
}

/// Adds the notice, where something was done of it.
fn keep_moved<'a>(notice: &'a Notice, answer: &Answer, left: &mut Vec<&'a Notice>)
    requires { vec_len left.old + 1 ≤ vec_capacity left.old }
    ensures left { map (λ notice. notice.now) left.new.items ≡ map (λ notice. notice.now) left.old.items ++ moved (notice.now ∷ []) (answer.now ∷ []) }
    ensures len { vec_len left.new ≤ vec_len left.old + 1 }
    ensures capacity { vec_capacity left.new ≡ vec_capacity left.old }
{
    if has_moved(notice, answer) {
        left.push_reserved(notice);
    }
}

/// Takes the answers to calls about these notices: counts them, and adds the notices of which something was done. Whether a report
/// isn't kept.
fn take_answers<'a>(
    notices: &[&'a Notice],
    answers: &[Answer],
    left: &mut Vec<&'a Notice>,
    tally: &mut TrackTally,
) -> bool
    requires few { length answers.now ≤ length notices.now }
    requires room { vec_len left.old + length answers.now ≤ vec_capacity left.old }
    ensures left { map (λ notice. notice.now) left.new.items ≡ map (λ notice. notice.now) left.old.items ++ moved (map (λ notice. notice.now) notices.now) answers.now }
    ensures tally { (device : List ℕ) → tally.new ≡ noted_all tally.old (asked (messages_of device (map (λ notice. notice.now) notices.now)) answers.now) }
    ensures unkept { result ≡ list_any is_unkept answers.now }
{
    let Some((answer, others)) = answers.split_first() else {
        return false;
    };
    let Some((notice, rest)) = notices.split_first() else {
        return false;
    };
    tally.note(answer);
    keep_moved(notice, answer, left);
    let unkept = take_answers(rest, others, left, tally);
    is_unkept(answer) || unkept
}

/// Why it stops behind a list, where it does.
fn stop_behind(unkept: bool) -> Option<TrackFault>
    ensures { result ≡ stop_behind unkept }
{
    if unkept {
        Some(TrackFault::NotKept)
    } else {
        None
    }
}

/// Makes one call about each of these notices, all together, and adds the notices of which something was done.
fn report_list<'a, S: Session>(
    alloc: Global,
    session: &mut S,
    device: &DeviceName,
    notices: &[&'a Notice],
    left: &mut Vec<&'a Notice>,
    tally: &mut TrackTally,
) -> Result<Option<TrackFault>, NoAnswer>
    ensures ok { IfOk result (ReportsList S.step device.now (map (λ notice. notice.now) notices.now) session.old session.new tally.old tally.new (map (λ notice. notice.now) left.old.items) (map (λ notice. notice.now) left.new.items)) }
    ensures fails { OnErr result (BreaksList S.step device.now (map (λ notice. notice.now) notices.now) session.old session.new tally.old tally.new S.fails) }
{
    let Ok(messages) = messages_of(alloc, device, notices) else {
        return Ok(Some(TrackFault::OutOfMemory));
    };
    let Ok(mut answers) = Vec::with_capacity(alloc, notices.len()) else {
        return Ok(Some(TrackFault::OutOfMemory));
    };
    if left.reserve(notices.len()).is_err() {
        return Ok(Some(TrackFault::OutOfMemory));
    }
    let made = session.call_all(messages, &mut answers);
    let unkept = take_answers(notices, answers.as_slice(), left, tally);
    made?;
    Ok(stop_behind(unkept))
}

/// The list that begins with this one: a hundred notices, or else all that are left.
fn list_at<'l, 'a>(notices: &'l [&'a Notice], first: usize) -> &'l [&'a Notice]
    requires { first ≤ length notices.now }
    ensures { result.now ≡ take 100 (drop first notices.now) }
{
    let end = first + MOST_TOGETHER.min(notices.len() - first);
    &notices[first..end]
}

/// Makes one call about each notice, in lists of calls that are made together, and adds the notices of which something was done.
fn report_round<'a, S: Session>(
    alloc: Global,
    session: &mut S,
    device: &DeviceName,
    notices: &[&'a Notice],
    left: &mut Vec<&'a Notice>,
    tally: &mut TrackTally,
) -> Result<Option<TrackFault>, NoAnswer>
    ensures ok { IfOk result (ReportsRound S.step device.now (map (λ notice. notice.now) notices.now) session.old session.new tally.old tally.new (map (λ notice. notice.now) left.old.items) (map (λ notice. notice.now) left.new.items)) }
    ensures fails { OnErr result (BreaksRound S.step device.now (map (λ notice. notice.now) notices.now) session.old session.new tally.old tally.new S.fails) }
{
    let mut done = 0;
    while done < notices.len() {
        let list = list_at(notices, done);
        if let Some(fault) = report_list(alloc, session, device, list, left, tally)? {
            return Ok(Some(fault));
        }
        done += list.len();
    }
    Ok(None)
}

/// The notices, for the first round.
fn first_round(alloc: Global, notices: &[Notice]) -> Result<Vec<&Notice>, AllocError>
    ensures { IfOk result (λ all. map (λ notice. notice.now) all.items ≡ notices.now) }
{
    let mut all = Vec::new(alloc);
    for notice in notices {
        all.push(notice)?;
    }
    Ok(all)
}

/// Reports all that was noticed, by rounds: the first has one call about each notice, in order, and each further one about those of
/// which something was done by the one before. It returns why no more was reported, where something was left.
pub(crate) fn report_by_rounds<S: Session>(
    alloc: Global,
    session: &mut S,
    device: &DeviceName,
    notices: &[Notice],
    tally: &mut TrackTally,
) -> Result<Option<TrackFault>, NoAnswer>
    ensures ok { IfOk result (MakesRounds S.step device.now notices.now session.old session.new tally.old tally.new) }
    ensures fails { OnErr result (BreaksRounds S.step device.now notices.now session.old session.new tally.old tally.new S.fails) }
{
    if notices.is_empty() {
        return Ok(None);
    }
    let Ok(mut round) = first_round(alloc, notices) else {
        return Ok(Some(TrackFault::OutOfMemory));
    };
    for _ in 0..MOST_ROUNDS {
        if round.is_empty() {
            return Ok(None);
        }
        let mut left = Vec::new(alloc);
        if let Some(fault) = report_round(
            alloc,
            session,
            device,
            round.as_slice(),
            &mut left,
            tally,
        )? {
            return Ok(Some(fault));
        }
        round = left;
    }
    Ok(None)
}
