//! Whether the copy at a place may be overwritten with the one at another.
ghost use Rattle.std.specs.Prelude.{◌≡◌, IfOk, IfErr};
ghost use Rattle.pana_calls.specs.Session.{one};
ghost use Rattle.pana_ask.specs.Verdict.{Judges, JudgesNothing, gone_in, verdict_in};

use crate::ask_fault::AskFault;
use crate::looking::copies_at;
use crate::verdict::Verdict;
use pana_calls::{Answer, Call, Cause, Query, Reply, Session};
use pana_copies::{DeviceName, Place};
use pana_event::Rel;

/// The verdict that follows from how the copy relates to the other, where the answer says that.
fn verdict_in(answer: &Answer) -> Option<Verdict>
    ensures { result ≡ verdict_in answer.now }
{
    match answer {
        Answer::Given(Reply::Pair(Rel::Equal | Rel::Older)) => Some(Verdict::Yes),
        Answer::Given(Reply::Pair(Rel::Newer)) => Some(Verdict::Newer),
        Answer::Given(Reply::Pair(Rel::Conflict)) => Some(Verdict::Conflict),
        Answer::Given(Reply::Refused(Cause::OtherFamily)) => Some(Verdict::Unrelated),
        _ => None,
    }
}

/// The copy that an answer says is no more.
fn gone_in(answer: &Answer) -> Option<u64>
    ensures { result ≡ gone_in answer.now }
{
    match answer {
        Answer::Given(Reply::Refused(Cause::UnknownCopy(copy))) => Some(*copy),
        _ => None,
    }
}

/// What an answer says: the copy that is no more, and the verdict.
fn read_answer(answer: Answer) -> (Option<u64>, Option<Verdict>)
    ensures gone { result.0 ≡ gone_in answer }
    ensures verdict { result.1 ≡ verdict_in answer }
{
    let gone = gone_in(&answer);
    let verdict = verdict_in(&answer);
    drop(answer);
    (gone, verdict)
}

/// Whether the copy at the place `target` may be overwritten with the one at `source`: asks a session, as the device `by`, for
/// both, and how the one relates to the other. One place twice is the same copy, so it may.
///
/// # Errors
///
/// `NoCopy` with the first place where no copy is; `NoAnswer` where a question has none; `OutOfMemory`.
pub fn may_overwrite<S: Session>(
    session: &mut S,
    by: &DeviceName,
    target: &Place,
    source: &Place,
) -> Result<Verdict, AskFault>
    ensures ok { IfOk result (Judges S.step by.now target.now source.now session.old session.new) }
    ensures err { IfErr result (JudgesNothing S.step (one S.fails) by.now target.now source.now session.old session.new) }
{
    let (copy, other) = copies_at(session, by, target, source)?;
    let pair = Query::Pair { a: copy, b: other };
    let answer = session.call(by, Call::Query(pair))?;
    let (gone, verdict) = read_answer(answer);
    if let Some(gone) = gone {
        let place = if gone == copy { target } else { source };
        return Err(AskFault::NoCopy(place.copy_of()?));
    }
    match verdict {
        Some(verdict) => Ok(verdict),
        None => Err(AskFault::OutOfMemory),
    }
}
